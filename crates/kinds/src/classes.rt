// Class numbers: labels told apart by numbers.
ghost use Rattle.std.specs.Prelude.{◌≡◌, ℕ, map, length, drop, MatchBool, nat_le};
ghost use Rattle.kinds.specs.Classes.{LowestSame, Classes};

use crate::label::Label;

// The lowest index of a label that is the same as `label`.
pub fn lowest_same<L: Label>(labels: &[L], label: &L) -> Option<usize>
    ensures { LowestSame (map L.meaning labels.now) (L.meaning label.now) result }
{
    labels.iter().position(|other| other.same(label))
}

// Writes for each label the lowest index of a label that is the same. A table that is too short
// stays as it is, and the answer is no.
pub fn class_numbers<L: Label>(labels: &[L], classes: &mut [usize]) -> bool
    ensures value { result ≡ nat_le (length labels.now) (length classes.old) }
    ensures after { MatchBool result (Classes (map L.meaning labels.now) classes.new) (classes.new ≡ classes.old) }
    ensures rest { drop (length labels.now) classes.new ≡ drop (length labels.now) classes.old }
{
    if classes.len() < labels.len() {
        return false;
    }
    // Kept as a write by index: after `iter_mut().zip(..)` no proof knows what the slice holds.
    for (i, label) in labels.iter().enumerate() {
        // A label is the same as itself, so there is one.
        classes[i] = lowest_same(labels, label).unwrap_or(i);
    }
    true
}
