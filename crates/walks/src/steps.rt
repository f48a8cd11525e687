// Steps that can be walked.
ghost use Rattle.std.specs.Prelude.{ℕ, List};
ghost use Rattle.walks.specs.Reach.{Inside};
ghost use Rattle.walks.specs.Visits.{VisitsHeads};

use crate::visits::Visits;

// Steps between nodes that have a mark.
pub trait Steps {
    // each step by its tail and its head
    ghost steps: { Self → List (ℕ × ℕ) };

    // Visits the heads of the steps that leave a node.
    fn visit_heads(&self, node: usize, visits: &mut Visits)
        ensures { VisitsHeads (steps self.now) node visits.old visits.new };

    ghost inside: { (s : Self) → Inside 1024 (steps s) };
}
