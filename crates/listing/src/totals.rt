// How many lines of each sort a list has.
ghost use Rattle.std.specs.Prelude.{◌≡◌};
ghost use Rattle.listing.specs.Totals.{first_of_class, labels_in, distinct_in, refused_in};

use crate::answer::Answer;
use kinds::label::Label;

#[derive(Clone, Copy, Debug, PartialEq, Eq, Hash)]
pub struct Totals {
    // lines that are labels
    pub labels: usize,
    // labels that no lower line has
    pub distinct: usize,
    // lines that are no labels
    pub refused: usize,
}

// Whether a line is a label that no lower line has.
fn is_first<L: Label>(line: usize, answer: &Answer<L>) -> bool
    ensures { result ≡ first_of_class line answer.now }
{
    match answer {
        Ok(known) => known.class == line,
        Err(_) => false,
    }
}

// Counts the answers.
pub fn count_answers<L: Label>(answers: &[Answer<L>]) -> Totals
    ensures labels { result.labels ≡ labels_in answers.now }
    ensures distinct { result.distinct ≡ distinct_in 0 answers.now }
    ensures refused { result.refused ≡ refused_in answers.now }
{
    Totals {
        labels: answers.iter().filter(|answer| answer.is_ok()).count(),
        distinct: answers
            .iter()
            .enumerate()
            .filter(|(line, answer)| is_first(*line, answer))
            .count(),
        refused: answers.iter().filter(|answer| answer.is_err()).count(),
    }
}
