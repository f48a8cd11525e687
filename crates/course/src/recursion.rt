// What a recursion does once its hubs are made: arrow by arrow, links from hub to hub or its body.
ghost use Rattle.std.specs.Prelude.{◌≡◌, ℕ, ◌+◌, ◌<◌, ◌≤◌, true, false, take, vec_len, slice_index_or};
ghost use Rattle.expression.specs.Admitted.{tree_of};
ghost use Rattle.course.specs.Evaluators.{Fitting};
ghost use Rattle.course.specs.Labels.{by_class};
ghost use Rattle.course.specs.Reach.{lost};

use crate::course::{Arrow, Full};
use crate::evaluate::Evaluator;
use crate::hub_table::Hubs;
use crate::workspace::Workspace;

// A recursion whose hubs are made: the evaluator around it, the place of its body and its hubs.
#[derive(Clone, Copy)]
pub struct Recursion<'a, 'b> {
    pub(crate) around: &'b Evaluator<'a>,
    pub(crate) body: usize,
    pub(crate) hubs: &'b Hubs,
    ghost level: { around.now.env.level < 4 },
    ghost fitting: { Fitting around.now (around.now.env.level + 1) body },
}

impl<'a, 'b> Recursion<'a, 'b> {
    ghost use Rattle.course.specs.Recursions.{members, Ready, Crosses, Bodies, Turns, Takes};

    // What each of the first arrows does.
    #[cycle(evaluation)]
    pub(crate) fn take_arrows(&self, count: usize, work: &mut Workspace) -> Result<(), Full>
        requires ready { Ready self.now (vec_len work.old.nodes) }
        requires known { count ≤ vec_len work.old.arrows }
        requires crosses { (k : ℕ) → k < count → Crosses self.now.hubs.now (slice_index_or work.old.arrows.items k lost) }
        ensures { let around = self.now.around.now in Takes (by_class around.classes.now) (tree_of around.expression.now self.now.body) around.env self.now.hubs.now (take count work.old.arrows.items) work.old work.new result }
    {
        // Kept as a loop over numbers: the body enters arrows while the first ones are gone through.
        for k in 0..count {
            let arrow = work.arrows[k];
            self.take_arrow(k, arrow, work)?;
        }
        Ok(())
    }

    // What an arrow does: nothing where its tail is not reached, blank arrows from hub to hub where
    // it is blank, and else a run of the body.
    #[cycle(evaluation)]
    fn take_arrow(&self, k: usize, arrow: Arrow, work: &mut Workspace) -> Result<(), Full>
        requires ready { Ready self.now (vec_len work.old.nodes) }
        requires crosses { Crosses self.now.hubs.now arrow }
        ensures { let around = self.now.around.now in Turns (by_class around.classes.now) (tree_of around.expression.now self.now.body) around.env self.now.hubs.now k arrow work.old work.new result }
    {
        let hubs = self.hubs;
        if !hubs.marks[arrow.tail] {
            return Ok(());
        }
        if arrow.origin.is_blank() {
            work.link_hubs(hubs, arrow.tail, arrow.head)
        } else {
            self.run_body(k, arrow, work)
        }
    }

    // The body in a new frame, one level deeper, tied to the hubs of the arrow's ends.
    #[cycle(evaluation)]
    fn run_body(&self, k: usize, arrow: Arrow, work: &mut Workspace) -> Result<(), Full>
        requires ready { Ready self.now (vec_len work.old.nodes) }
        requires crosses { Crosses self.now.hubs.now arrow }
        requires reached { slice_index_or (members self.now.hubs.now) arrow.tail false ≡ true }
        ensures { let around = self.now.around.now in Bodies (by_class around.classes.now) (tree_of around.expression.now self.now.body) around.env self.now.hubs.now k arrow work.old work.new result }
    {
        let hubs = self.hubs;
        let base = work.outs.len();
        let inside = Evaluator {
            expression: self.around.expression,
            classes: self.around.classes,
            env: self.around.env.deeper(arrow.origin, arrow.head),
        };
        let frame = work.add_frame(hubs.rule, k)?;
        let into = inside.evaluate(self.body, frame, work)?;
        work.link_all(hubs.rule, hubs.set, hubs.in_map(arrow.tail), into)?;
        let end = work.outs.len();
        work.tie_outs(hubs.rule, base, end, hubs.set, hubs.in_map(arrow.head))?;
        work.drop_outs(base);
        Ok(())
    }
}
