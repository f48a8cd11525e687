// The source of a run: a graph with a root.
ghost use Rattle.std.specs.Prelude.{◌≡◌, ◌≤◌, true};
ghost use Rattle.arrayvec.specs.ArrayVec.{array_vec_len};
ghost use Rattle.course.specs.Ends.{inside};

use arrayvec::ArrayVec;

pub const SOURCE_NODES: usize = 128;

pub const SOURCE_ARROWS: usize = 256;

// Nodes and arrows are numbered from 0, and node 0 is the root. An arrow is the pair of its tail
// and its head. The arrows lie in the source itself, so that making one cannot fail for memory.
#[derive(Drop)]
pub struct Source {
    pub(crate) nodes: usize,
    pub(crate) arrows: ArrayVec<(usize, usize), 256>,
    ghost some: { 1 ≤ nodes },
    ghost few_nodes: { nodes ≤ 128 },
    ghost few_arrows: { array_vec_len arrows ≤ 256 },
    ghost ends: { inside nodes arrows.items ≡ true },
}

// Why a source is refused.
#[derive(Clone, Copy, Debug, PartialEq, Eq)]
pub enum SourceFault {
    // no node, or more than 128, or more than 256 arrows
    Count,
    // the lowest arrow with an end that is no node
    End(usize),
}
