// A table of steps, by the node that they leave.
ghost use Rattle.std.specs.Prelude.{◌≡◌, ℕ, ◌<◌, ◌≤◌, None, map, vec_len, vec_capacity, slice_index_or};
ghost use Rattle.walks.specs.Chains.{no_step, ends, tail_at, latest_of};
ghost use Rattle.walks.specs.Reach.{Inside};

use crate::steps::Steps;
use crate::visits::{NODES, Visits};
use std::alloc::{AllocError, Global};

// How many steps a table has room for.
pub const STEPS: usize = 2048;

// A step, and the number of the latest step before it with the same tail. The numbers are narrow, so
// that a step fills one word: a walk reads one for each step.
#[derive(Clone, Copy)]
struct Step {
    tail: u16,
    head: u16,
    before: Option<u16>,
}

// Steps between nodes that have a mark, in memory that is taken once, with the number of the latest
// step that leaves each node.
#[derive(Drop)]
pub struct StepTable {
    latest: [Option<u16>; 1024],
    steps: Vec<Step>,
    ghost room: { 2048 ≤ vec_capacity steps },
    ghost few: { vec_len steps ≤ 2048 },
    ghost inside: { Inside 1024 (map ends steps.items) },
    ghost latest_out: { (v : ℕ) → v < 1024 → slice_index_or latest v None ≡ latest_of steps.items v (vec_len steps) },
    ghost before_out: { (k : ℕ) → k < vec_len steps → (slice_index_or steps.items k no_step).before ≡ latest_of steps.items (tail_at steps.items k) k },
}

impl StepTable {
    ghost use Rattle.std.specs.Prelude.{[], ◌∷◌, ◌++◌, ◌&&◌, if◌then◌else◌, length, nat_lt, IfOk};
    ghost use Rattle.walks.specs.Tables.{steps_of};

    // No steps yet.
    pub fn new(heap: Global) -> Result<StepTable, AllocError>
        ensures { IfOk result (λ table. steps_of table ≡ []) }
    {
        let steps = Vec::with_capacity(heap, STEPS)?;
        Ok(StepTable {
            latest: [None; 1024],
            steps,
        })
    }

    // Takes all steps out.
    pub fn clear(&mut self)
        ensures { steps_of self.new ≡ [] }
    {
        self.steps.clear();
        self.latest = [None; 1024];
    }

    // Adds a step where there is room and both of its ends have a mark, and says whether it did.
    pub fn add(&mut self, tail: usize, head: usize) -> bool
        ensures value { result ≡ (nat_lt (length (steps_of self.old)) 2048 && (nat_lt tail 1024 && nat_lt head 1024)) }
        ensures steps { steps_of self.new ≡ (if result then steps_of self.old ++ (tail, head) ∷ [] else steps_of self.old) }
    {
        let number = self.steps.len();
        if number < STEPS && tail < NODES && head < NODES {
            let before = self.latest[tail];
            self.latest[tail] = Some(number as u16);
            self.steps.push_reserved(Step {
                tail: tail as u16,
                head: head as u16,
                before,
            });
            true
        } else {
            false
        }
    }
}

impl Steps for StepTable {
    ghost use Rattle.walks.specs.Tables.{steps_of};

    ghost steps = { steps_of };

    // Follows the chain of the steps that leave the node, the latest first.
    fn visit_heads(&self, node: usize, visits: &mut Visits) {
        let mut at = self.latest.get(node).copied().flatten();
        while let Some(number) = at {
            let step = self.steps[usize::from(number)];
            visits.visit(usize::from(step.head));
            at = step.before;
        }
    }

    ghost inside = { λ table. table.inside };
}
