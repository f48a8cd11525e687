// The rule that makes an entry.

// The rule of a place of the expression in a frame.
#[derive(Clone, Copy, Debug, PartialEq, Eq)]
pub struct Rule {
    pub place: usize,
    pub frame: usize,
}
