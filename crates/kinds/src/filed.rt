// The interface of filed kinds: label kinds whose labels also have a text.
ghost use Rattle.std.specs.Prelude.{◌≡◌, ℕ, ◌≤◌, List, length, IfSome, if◌then◌else◌, Some as Written, None as NotWritten, MatchResult, ◌≢◌, nat_le};
ghost use Rattle.kinds.specs.Filed.{Tied, overlaid};
ghost use Rattle.kinds.specs.declared.refusal.Refusal.{Refusal};

use crate::label::Label;
use crate::refusal::Refusal;

// A buffer of so many bytes has room for the text of any label.
pub const TEXT_SIZE: usize = 16;

// A filed kind. Two labels have equal texts exactly when they have equal meanings.
pub trait FiledLabel: Label {
    ghost text: { Self → List ℕ };

    // That making gives the label.
    ghost made: { Self → Type 0 };

    // Why a text that is no label's is refused.
    ghost refusal: { Refusal };

    // Writes the text over the start of a buffer of at least sixteen bytes and answers its length;
    // a shorter buffer stays as it is.
    fn write_text(&self, out: &mut [u8]) -> Option<usize>
        ensures value { result ≡ (if nat_le 16 (length out.old) then Written (length (text self.now)) else NotWritten) }
        ensures bound { IfSome result (λ n. n ≤ 16) }
        ensures after { out.new ≡ (if nat_le 16 (length out.old) then overlaid (text self.now) out.old else out.old) }
        ensures tied { Tied text Self.Label.meaning };

    // The label that making gives and that has this text, or the kind's refusal where there is none.
    fn read_text(bytes: &[u8]) -> Result<Self, Refusal>
        ensures value { MatchResult result (λ x. made x × (text x ≡ bytes.now)) (λ e. (e ≡ refusal) × ((x : Self) → made x → text x ≢ bytes.now)) }
        ensures tied { Tied text Self.Label.meaning };

    ghost tied: { Tied text Self.Label.meaning };
}
