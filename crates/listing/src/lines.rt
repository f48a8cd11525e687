// The lines of a text.
ghost use Rattle.std.specs.Prelude.{◌≡◌, ℕ, ◌<◌, ◌≤◌, length, ◌≢◌, slice_index};
ghost use Rattle.std.specs.Iterator.{YieldsFirstRef, item_count};
ghost use Rattle.listing.specs.Lines.{lines_of};

const LINE_END: u8 = b'\n';

// How many bytes stand before the first line end, or in all where there is none.
fn line_len(text: &[u8]) -> usize
    ensures within { result ≤ length text.now }
    ensures before { (k : ℕ) → k < result → slice_index text.now k ≢ 10 }
    ensures found { result < length text.now → slice_index text.now result ≡ 10 }
{
    text.iter()
        .position(|&byte| byte == LINE_END)
        .unwrap_or(text.len())
}

// The lines of a text from its first on, without their line ends.
#[derive(Debug, Drop)]
pub(crate) struct Lines<'a>(pub(crate) &'a [u8]);

impl<'a> Iterator for Lines<'a> {
    type Item = &'a [u8];

    ghost next_gives = { YieldsFirstRef (λ text. lines_of text.0.now) };

    ghost remaining = { item_count (λ text. lines_of text.0.now) };

    fn next(&mut self) -> Option<&'a [u8]> {
        let text = self.0;
        if text.is_empty() {
            return None;
        }
        let len = line_len(text);
        self.0 = text.get(len + 1..).unwrap_or(&[]);
        Some(&text[..len])
    }
}
