// The memory that a run works in and leaves its course in.
ghost use Rattle.std.specs.Prelude.{◌≡◌, ℕ, ◌<◌, ◌≤◌, map, vec_len, vec_capacity, slice_index_or};
ghost use Rattle.walks.specs.Tables.{steps_of};
ghost use Rattle.course.specs.Outs.{no_out};
ghost use Rattle.course.specs.Reach.{ends, lost};

use crate::course::{Arrow, Comparison, Frame, Node};
use crate::environment::Out;
use walks::step_table::StepTable;

// A course, the stack of the outs that its evaluation has left open so far, and its arrows as the
// steps that leave each node. There is room for every entry that fits.
#[derive(Drop)]
pub struct Workspace {
    pub(crate) nodes: Vec<Node>,
    pub(crate) arrows: Vec<Arrow>,
    pub(crate) frames: Vec<Frame>,
    pub(crate) comparisons: Vec<Comparison>,
    pub(crate) outs: Vec<Out>,
    pub(crate) steps: StepTable,
    ghost node_room: { 1024 ≤ vec_capacity nodes },
    ghost arrow_room: { 2048 ≤ vec_capacity arrows },
    ghost frame_room: { 512 ≤ vec_capacity frames },
    ghost comparison_room: { 1024 ≤ vec_capacity comparisons },
    ghost out_room: { 1024 ≤ vec_capacity outs },
    ghost nodes_within: { vec_len nodes ≤ 1024 },
    ghost arrows_within: { vec_len arrows ≤ 2048 },
    ghost outs_within: { vec_len outs ≤ vec_len nodes },
    ghost out_nodes: { (k : ℕ) → k < vec_len outs → (slice_index_or outs.items k no_out).node < vec_len nodes },
    ghost out_markers: { (k : ℕ) → k < vec_len outs → (slice_index_or outs.items k no_out).marker < 8 },
    ghost tails: { (k : ℕ) → k < vec_len arrows → (slice_index_or arrows.items k lost).tail < vec_len nodes },
    ghost heads: { (k : ℕ) → k < vec_len arrows → (slice_index_or arrows.items k lost).head < vec_len nodes },
    ghost linked: { steps_of steps ≡ map ends arrows.items },
}
