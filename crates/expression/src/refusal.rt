// Why an expression is not admitted.
ghost use Rattle.std.specs.Prelude.{◌≡◌, Some as Printed};
ghost use Rattle.expression.specs.Refusals.{number_of, place_of, printed};

use std::error::Error;
use std::fmt;

// The first check that failed, with the lowest place at which it did.
#[derive(Clone, Copy, Debug, PartialEq, Eq, Hash)]
pub enum Refusal {
    // no place, more than 64 places, or more than 32 constants
    Size,
    // a letter that is no form's, or a part that does not stand lower
    IllFormed(usize),
    // not a part exactly once, or the whole a part
    NotPartOnce(usize),
    // a level, variable, constant or marker that is out of range
    OutOfRange(usize),
    // in-sets and out-sets that do not fit
    SetsUnfit(usize),
}

impl Refusal {
    // The number under which the refusal is reported.
    pub fn number(self) -> usize
        ensures { result ≡ number_of self }
    {
        match self {
            Refusal::Size => 11,
            Refusal::IllFormed(_) => 12,
            Refusal::NotPartOnce(_) => 13,
            Refusal::OutOfRange(_) => 14,
            Refusal::SetsUnfit(_) => 15,
        }
    }

    // The place that it names, if any.
    pub fn place(self) -> Option<usize>
        ensures { result ≡ place_of self }
    {
        match self {
            Refusal::Size => None,
            Refusal::IllFormed(place)
            | Refusal::NotPartOnce(place)
            | Refusal::OutOfRange(place)
            | Refusal::SetsUnfit(place) => Some(place),
        }
    }
}

// The number, and the place if it names one: `11`, `14 place=3`.
impl fmt::Display for Refusal {
    ghost output = { λ refusal. Printed (printed refusal) };

    fn fmt<W: fmt::Write>(&self, f: &mut fmt::Formatter<W>) -> fmt::Result {
        let number = self.number();
        match self.place() {
            Some(place) => write!(f, "{number} place={place}"),
            None => write!(f, "{number}"),
        }
    }
}

impl Error for Refusal {}
