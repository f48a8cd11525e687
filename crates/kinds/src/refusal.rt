// Why a label was not made.
ghost use Rattle.std.specs.Prelude.{◌≡◌, Some as Prints};
ghost use Rattle.std.specs.Fmt.{decimal};
ghost use Rattle.kinds.specs.Refusals.{number_of};

use std::error::Error;
use std::fmt;

#[derive(Clone, Copy, Debug, PartialEq, Eq, Hash)]
pub enum Refusal {
    // A text of another length, or with a byte outside the alphabet.
    Text = 24,
    // A value outside its sort's range, or a text that is no setting's.
    Setting = 25,
}

impl Refusal {
    // The number by which people know the refusal.
    pub fn number(self) -> u8
        ensures { result ≡ number_of self }
    {
        self as u8
    }
}

// A refusal is printed as its number.
impl fmt::Display for Refusal {
    ghost output = { λ refusal. Prints (decimal (number_of refusal)) };

    fn fmt<W: fmt::Write>(&self, f: &mut fmt::Formatter<W>) -> fmt::Result {
        write!(f, "{}", self.number())
    }
}

impl Error for Refusal {}
