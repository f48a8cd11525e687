// Why a view is refused.
ghost use Rattle.std.specs.Prelude.{◌≡◌, Some as Prints};
ghost use Rattle.view.specs.Faults.{told, printed};

use course::course::Full;
use std::error::Error;
use std::fmt;

// The first check that failed.
#[derive(Clone, Copy, Debug, PartialEq, Eq)]
pub enum ViewFault {
    // fewer labels than the source has arrows, or than the expression has constants
    ShortTable,
    // the first entry of the course that does not fit
    Full(Full),
    // more than 1,024 rows
    TooManyRows,
}

impl ViewFault {
    // The number under which the refusal is reported.
    pub fn number(self) -> usize
        ensures { result ≡ (told self).0 }
    {
        match self {
            ViewFault::ShortTable => 10,
            ViewFault::Full(_) => 18,
            ViewFault::TooManyRows => 19,
        }
    }

    // The entry that it names, if any.
    pub fn entry(self) -> Option<Full>
        ensures { result ≡ (told self).1 }
    {
        match self {
            ViewFault::Full(full) => Some(full),
            ViewFault::ShortTable | ViewFault::TooManyRows => None,
        }
    }
}

// The refusal's number, and the entry that it names.
impl fmt::Display for ViewFault {
    ghost output = { λ fault. Prints (printed fault) };

    fn fmt<W: fmt::Write>(&self, f: &mut fmt::Formatter<W>) -> fmt::Result {
        let number = self.number();
        match self.entry() {
            Some(entry) => write!(f, "{number} {entry}"),
            None => write!(f, "{number}"),
        }
    }
}

impl Error for ViewFault {}
