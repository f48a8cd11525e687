// The entries of a course's four lists.
ghost use Rattle.std.specs.Prelude.{◌≡◌};

// How many entries each list has room for.
pub const NODES: usize = 1024;

pub const ARROWS: usize = 2048;

pub const FRAMES: usize = 512;

pub const COMPARISONS: usize = 1024;

// The place that the entries of the source carry: one past the last place of an expression.
// Kept as a number: the rules print it so, and give frame 0 itself for its parent and arrow 0.
pub const SOURCE_PLACE: usize = 64;

// Where an arrow's label comes from.
#[derive(Clone, Copy, Debug, PartialEq, Eq)]
pub enum Origin {
    // it has none
    Blank,
    // the label of a source arrow
    Source(usize),
    // a constant of the expression
    Constant(usize),
}

impl Origin {
    ghost use Rattle.course.specs.Course.{is_blank_origin};

    // Whether there is no label.
    pub fn is_blank(self) -> bool
        ensures { result ≡ is_blank_origin self }
    {
        matches!(self, Origin::Blank)
    }
}

// A node, made by the rule of a place in a frame. It stands for itself, except that a hub stands
// for the node that it was made for.
#[derive(Clone, Copy, Debug, PartialEq, Eq)]
pub struct Node {
    pub place: usize,
    pub frame: usize,
    pub marker: usize,
    pub stands: usize,
}

// An arrow between two nodes, made by the rule of a place in a frame.
#[derive(Clone, Copy, Debug, PartialEq, Eq)]
pub struct Arrow {
    pub tail: usize,
    pub head: usize,
    pub origin: Origin,
    pub place: usize,
    pub frame: usize,
}

// One run of a recursion's body: the frame around it, the recursion's place and the arrow that
// the body was run for.
#[derive(Clone, Copy, Debug, PartialEq, Eq)]
pub struct Frame {
    pub parent: usize,
    pub place: usize,
    pub arrow: usize,
}

// How two labels compare.
#[derive(Clone, Copy, Debug, PartialEq, Eq)]
pub enum Outcome {
    Same,
    Other,
}

// A comparison of the labels of two origins, made at a place in a frame.
#[derive(Clone, Copy, Debug, PartialEq, Eq)]
pub struct Comparison {
    pub place: usize,
    pub frame: usize,
    pub left: Origin,
    pub right: Origin,
    pub outcome: Outcome,
}

// The four lists by name.
#[derive(Clone, Copy, Debug, PartialEq, Eq)]
pub enum ListName {
    Nodes = 1,
    Arrows = 2,
    Frames = 3,
    Comparisons = 4,
}

impl ListName {
    ghost use Rattle.course.specs.Course.{list_number};

    // The number of a list: nodes 1, arrows 2, frames 3, comparisons 4.
    pub fn number(&self) -> usize
        ensures { result ≡ list_number self.now }
    {
        *self as usize
    }
}

// The first entry that does not fit: the place and the frame whose rule makes it, and its list.
#[derive(Clone, Copy, Debug, PartialEq, Eq)]
pub struct Full {
    pub place: usize,
    pub frame: usize,
    pub list: ListName,
}

// How many entries each list of a course has.
#[derive(Clone, Copy, Debug, Default, PartialEq, Eq)]
pub struct Sizes {
    pub nodes: usize,
    pub arrows: usize,
    pub frames: usize,
    pub comparisons: usize,
}
