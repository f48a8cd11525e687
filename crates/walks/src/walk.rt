// A walk: what steps reach from a root.
ghost use Rattle.std.specs.Prelude.{◌≡◌, ℕ, ◌<◌, ◌↔◌, true, false, [], slice_index_or};
ghost use Rattle.walks.specs.Reach.{Reaches, lead};
ghost use Rattle.walks.specs.Visits.{visiting, nothing};

use crate::steps::Steps;
use crate::visits::Visits;

// Marks the root, and what steps lead to from it, where nothing is marked yet.
fn spread<S: Steps>(steps: &S, root: usize, visits: &mut Visits)
    requires { visiting visits.old ≡ nothing }
    ensures { visiting visits.new ≡ record { marks = lead 1024 (S.steps steps.now) root; listed = [] } }
{
    visits.visit(root);
    while let Some(node) = visits.take_next() {
        steps.visit_heads(node, visits);
    }
}

// For each node with a mark, whether it is the root or steps lead to it from the root.
pub fn walk<S: Steps>(steps: &S, root: usize) -> [bool; 1024]
    ensures marks { result ≡ lead 1024 (S.steps steps.now) root }
    ensures reached { (v : ℕ) → v < 1024 → (slice_index_or result v false ≡ true) ↔ Reaches (S.steps steps.now) root v }
{
    let mut visits = Visits::new();
    spread(steps, root, &mut visits);
    *visits.marks()
}

// Marks just the root and what steps lead to from it, whatever was marked, and leaves none to be
// visited. Whoever walks often keeps
// the visits, since making them writes their memory.
pub fn walk_again<S: Steps>(steps: &S, root: usize, visits: &mut Visits)
    ensures after { visiting visits.new ≡ record { marks = lead 1024 (S.steps steps.now) root; listed = [] } }
    ensures reached { (v : ℕ) → v < 1024 → (slice_index_or visits.new.marks v false ≡ true) ↔ Reaches (S.steps steps.now) root v }
{
    visits.clear();
    spread(steps, root, visits);
}

#[cfg(test)]
mod tests {
    use super::*;
    use crate::step_table::{STEPS, StepTable};
    use std::test::Fail;

    // Whether a walk from the root marks just these of the first six nodes.
    fn walks_to(table: &StepTable, root: usize, nodes: &[usize]) -> bool {
        let marks = walk(table, root);
        (0..6).all(|node| marks[node] == nodes.contains(&node))
    }

    #[test]
    fn walks_round_a_cycle_and_past_a_fork(rt: HostRuntime) -> Result<(), Fail> {
        let mut table = StepTable::new(rt.alloc())?;
        for (tail, head) in [(1, 2), (2, 1), (2, 4), (5, 1), (4, 4)] {
            assert!(rt; table.add(tail, head));
        }
        assert!(rt; walks_to(&table, 1, &[1, 2, 4]));
        assert!(rt; walks_to(&table, 5, &[1, 2, 4, 5]));
        assert!(rt; walks_to(&table, 4, &[4]));
        assert!(rt; walks_to(&table, 1024, &[]), "the root has no mark");
        table.clear();
        assert!(rt; walks_to(&table, 5, &[5]));
        Ok(())
    }

    #[test]
    fn holds_2048_steps_and_no_more(rt: HostRuntime) -> Result<(), Fail> {
        let mut table = StepTable::new(rt.alloc())?;
        assert!(rt; !table.add(0, 1024));
        for number in 0..STEPS {
            assert!(rt; table.add(number / 2, number / 4));
        }
        assert!(rt; !table.add(0, 0), "there is room for no more");
        assert!(rt; walks_to(&table, 3, &[3, 1, 0]));
        Ok(())
    }
}
