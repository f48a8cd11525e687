// The class numbers of labels.
ghost use Rattle.std.specs.Prelude.{◌≡◌};

use crate::course::{Origin, Outcome};

// A number for each source arrow and for each constant. Two labels count as the same in a run
// where their numbers are equal.
#[derive(Clone, Copy, Debug, PartialEq, Eq)]
pub struct Classes {
    pub arrows: [u16; 256],
    pub constants: [u16; 32],
}

impl Classes {
    ghost use Rattle.course.specs.Labels.{class_of, by_class};

    // The class number of an origin's label.
    // Kept as a number for a blank too: the laws compare numbers, and no term that is compared is blank.
    fn class(&self, origin: Origin) -> u16
        ensures { result ≡ class_of self.now origin }
    {
        match origin {
            Origin::Blank => 0,
            Origin::Source(arrow) => self.arrows.get(arrow).copied().unwrap_or(0),
            Origin::Constant(constant) => self.constants.get(constant).copied().unwrap_or(0),
        }
    }

    // How the labels of two origins compare.
    pub(crate) fn outcome(&self, left: Origin, right: Origin) -> Outcome
        ensures { result ≡ by_class self.now left right }
    {
        if self.class(left) == self.class(right) {
            Outcome::Same
        } else {
            Outcome::Other
        }
    }
}
