// Terms: what a label is asked of.

// A constant of the expression by its number, or the label variable of a level.
#[derive(Clone, Copy, Debug, PartialEq, Eq, Hash)]
pub enum Term {
    Constant(usize),
    Variable(usize),
}
