// A row of the view.
ghost use Rattle.std.specs.Prelude.{Some as Prints};
ghost use Rattle.rows.specs.Printed.{row_text};

use course::course::Origin;
use std::fmt;

// A shown node with an arrow that leads on from it: the node, the arrow's head, and the arrow's
// origin, place and frame.
#[derive(Clone, Copy, Debug, PartialEq, Eq)]
pub struct Row {
    pub node: usize,
    pub head: usize,
    pub origin: Origin,
    pub place: usize,
    pub frame: usize,
}

impl fmt::Display for Row {
    ghost output = { λ row. Prints (row_text row) };

    fn fmt<W: fmt::Write>(&self, f: &mut fmt::Formatter<W>) -> fmt::Result {
        write!(
            f,
            "node={} head={} origin={} place={} frame={}",
            self.node, self.head, self.origin, self.place, self.frame
        )
    }
}

// How many rows a view has room for.
pub const ROWS: usize = 1024;

// Why rows are not listed.
#[derive(Clone, Copy, Debug, PartialEq, Eq)]
pub enum RowsFault {
    // there are more nodes or arrows than a course has, or the root or an end of an arrow is no node
    Unfit,
    // there are more than 1,024 rows
    TooMany,
}
