// Text labels: 1 to 16 bytes of the house alphabet.
ghost use Rattle.std.specs.Prelude.{◌≡◌, ℕ, ◌≤◌, List, length, IfOk};
ghost use Rattle.kinds.specs.Texts.{trimmed, bytes_of, equal, legal, making, Kept, Made};
ghost use Rattle.kinds.specs.declared.refusal.Refusal.TheVariants.{Text as TextRefused};
ghost use Rattle.kinds.specs.Trims.{equal_exact, text_tied};

use crate::alphabet::in_house;
use crate::filed::{FiledLabel, TEXT_SIZE};
use crate::label::Label;
use crate::refusal::Refusal;

// How many bytes a label can have.
const LONGEST: usize = 16;

// Sixteen bytes; the label's are those before the zeros at the end.
#[derive(Clone, Copy, Debug, PartialEq, Eq, Hash)]
pub struct TextLabel {
    pub bytes: [u8; LONGEST],
}

// Whether a text is a label's: its length is right, and its bytes are in the alphabet.
fn is_legal(text: &[u8]) -> bool
    ensures { result ≡ legal text.now }
{
    (1..=LONGEST).contains(&text.len()) && text.iter().all(|&byte| in_house(byte))
}

impl TextLabel {
    // The label of a text, or a refusal where its length or a byte is wrong.
    pub fn make(text: &[u8]) -> Result<TextLabel, Refusal>
        ensures value { result ≡ making text.now }
        ensures means { IfOk result (λ t. bytes_of t ≡ text.now) }
        ensures kept { IfOk result Kept }
    {
        if !is_legal(text) {
            return Err(Refusal::Text);
        }
        let mut bytes = [0u8; LONGEST];
        bytes[..text.len()].copy_from_slice(text);
        Ok(TextLabel { bytes })
    }

    // The bytes before the zeros at the end.
    fn text(&self) -> &[u8]
        ensures value { result.now ≡ bytes_of self.now }
        ensures bound { length result.now ≤ 16 }
    {
        let len = self
            .bytes
            .iter()
            .rposition(|&byte| byte != 0)
            .map_or(0, |last| last + 1);
        &self.bytes[..len]
    }
}

impl<'a> TryFrom<&'a [u8]> for TextLabel {
    type Error = Refusal;

    ghost try_from_gives = { λ text made. made ≡ making text.now };

    fn try_from(text: &'a [u8]) -> Result<TextLabel, Refusal> {
        TextLabel::make(text)
    }
}

impl Label for TextLabel {
    ghost Meaning = { List ℕ };

    ghost meaning = { bytes_of };

    ghost alike = { λ s t. equal (bytes_of s) (bytes_of t) };

    ghost exact = { λ x y. equal_exact (trimmed x.bytes) (trimmed y.bytes) };

    // Rows that have the same bytes before the zeros at their ends have the same sixteen.
    fn same(&self, other: &TextLabel) -> bool {
        self.bytes == other.bytes
    }
}

impl FiledLabel for TextLabel {
    ghost text = { bytes_of };

    ghost made = { Made };

    ghost refusal = { TextRefused };

    ghost tied = { text_tied };

    fn write_text(&self, out: &mut [u8]) -> Option<usize> {
        if out.len() < TEXT_SIZE {
            return None;
        }
        let text = self.text();
        out[..text.len()].copy_from_slice(text);
        Some(text.len())
    }

    // A label's text is what it is made of.
    fn read_text(bytes: &[u8]) -> Result<TextLabel, Refusal> {
        TextLabel::make(bytes)
    }
}

#[cfg(test)]
mod tests {
    use super::*;
    use std::test::Fail;

    fn is_refused(text: &[u8]) -> bool {
        matches!(TextLabel::make(text), Err(Refusal::Text))
    }

    #[test]
    fn lengths_and_bytes(rt: HostRuntime) -> Result<(), Fail> {
        let longest = TextLabel::make(b"Approach-NE/lane")?;
        assert_eq!(rt;
            longest.bytes,
            *b"Approach-NE/lane",
            "sixteen bytes make a label"
        );
        assert!(rt; is_refused(b"Approach-NE/lane1"), "seventeen do not");
        assert!(rt; is_refused(b""), "nor does none");
        assert!(rt;
            is_refused(b"North East"),
            "a space is outside the alphabet"
        );
        assert!(rt; !is_refused(b"a.Z_9-/"));
        Ok(())
    }

    #[test]
    fn rows_that_no_making_gives(rt: HostRuntime) {
        let mut inner_zero = TextLabel { bytes: [0; 16] };
        inner_zero.bytes[2] = b'x';
        let none = TextLabel { bytes: [0; 16] };
        assert!(rt; inner_zero.same(&inner_zero));
        assert!(rt; !inner_zero.same(&none));
    }
}
