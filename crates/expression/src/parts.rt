// The parts of a form.
ghost use Rattle.std.specs.Prelude.{◌≡◌};
ghost use Rattle.std.specs.Iterator.{YieldsFirst, item_count};
ghost use Rattle.expression.specs.Listed.{listed};
ghost use Rattle.expression.specs.Forms.{parts_of, lower};

use crate::form::Form;

// The places of a form's parts, in their order.
#[derive(Clone, Copy, Debug, PartialEq, Eq, Hash)]
pub enum Parts {
    Nothing,
    One(usize),
    Two(usize, usize),
}

impl Form {
    // The parts of the form.
    pub fn parts(self) -> Parts
        ensures { listed result ≡ parts_of self }
    {
        match self {
            Form::Zero | Form::Node | Form::Out(_) | Form::Graph(_) => Parts::Nothing,
            Form::Edge(_, part) | Form::Mark(_, part) => Parts::One(part),
            Form::Union(left, right)
            | Form::Disjoint(left, right)
            | Form::Append(left, right)
            | Form::If(_, _, left, right) => Parts::Two(left, right),
            Form::Recursion(body, argument) => Parts::Two(body, argument),
        }
    }

    // Whether the parts of the form stand lower than a place.
    pub(crate) fn parts_lower(self, place: usize) -> bool
        ensures { result ≡ lower place self }
    {
        self.parts().all(|part| part < place)
    }
}

impl Iterator for Parts {
    type Item = usize;

    ghost next_gives = { YieldsFirst listed };

    ghost remaining = { item_count listed };

    // Takes the first of the parts that are left.
    fn next(&mut self) -> Option<usize> {
        match *self {
            Parts::Nothing => None,
            Parts::One(part) => {
                *self = Parts::Nothing;
                Some(part)
            }
            Parts::Two(left, right) => {
                *self = Parts::One(right);
                Some(left)
            }
        }
    }
}
