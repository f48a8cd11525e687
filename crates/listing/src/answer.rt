// The answer to each line of a list of label texts.
ghost use Rattle.std.specs.Prelude.{◌≡◌, map, IfOk, Some as Meant, Decides};
ghost use Rattle.kinds.specs.Classes.{LowestSame};
ghost use Rattle.listing.specs.Answers.{meaning_of, Answers, Listed};
ghost use Rattle.listing.specs.Lines.{lines_of};

use crate::lines::Lines;
use kinds::filed::FiledLabel;
use kinds::label::Label;
use kinds::refusal::Refusal;
use std::alloc::{AllocError, Global};

// A label with its class, which is the lowest line whose label is the same.
#[derive(Clone, Copy, Debug, PartialEq, Eq, Hash)]
pub struct Classified<L> {
    pub label: L,
    pub class: usize,
}

// What a line is: a label, or none for this reason.
pub type Answer<L> = Result<Classified<L>, Refusal>;

// Whether a line is this label.
fn is_label<L: FiledLabel>(answer: &Answer<L>, label: &L) -> bool
    ensures { Decides result (meaning_of L.Label.meaning answer.now ≡ Meant (L.Label.meaning label.now)) }
{
    match answer {
        Ok(known) => known.label.same(label),
        Err(_) => false,
    }
}

// The lowest line that is this label.
fn lowest_line<L: FiledLabel>(answers: &[Answer<L>], label: &L) -> Option<usize>
    ensures { LowestSame (map (meaning_of L.Label.meaning) answers.now) (Meant (L.Label.meaning label.now)) result }
{
    // Kept as a loop: by `position`, LLVM leaves a call for each pair of sixteen bytes, and a long list
    // of labels takes more than twice the time.
    for (i, answer) in answers.iter().enumerate() {
        if is_label(answer, label) {
            return Some(i);
        }
    }
    None
}

// The answer to a line after the answers to the lines before it.
fn answer_to<L: FiledLabel>(earlier: &[Answer<L>], line: &[u8]) -> Answer<L>
    ensures { Answers L.text L.made L.refusal L.Label.meaning earlier.now line.now result }
{
    let label = L::read_text(line)?;
    let class = lowest_line(earlier, &label).unwrap_or(earlier.len());
    Ok(Classified { label, class })
}

// The answer to each line of a text.
pub fn list_labels<L: FiledLabel>(heap: Global, bytes: &[u8]) -> Result<Vec<Answer<L>>, AllocError>
    ensures { IfOk result (λ v. Listed L.text L.made L.refusal L.Label.meaning (lines_of bytes.now) v.items) }
{
    let mut answers = Vec::new(heap);
    for line in Lines(bytes) {
        let answer = answer_to(&answers, line);
        answers.push(answer)?;
    }
    Ok(answers)
}
