// The forward run, in memory that is taken once.
ghost use Rattle.std.specs.Prelude.{◌≡◌, IfOk};
ghost use Rattle.expression.specs.Admitted.{tree_of, whole_of};
ghost use Rattle.course.specs.Forward.{forward};
ghost use Rattle.course.specs.Labels.{by_class};
ghost use Rattle.course.specs.Opening.{no_course as empty_course};
ghost use Rattle.course.specs.Sources.{graph_of};
ghost use Rattle.course.specs.View.{course_of, Ran};

use crate::classes::Classes;
use crate::course::{ARROWS, COMPARISONS, FRAMES, Full, NODES};
use crate::environment::Environment;
use crate::evaluate::Evaluator;
use crate::source::Source;
use crate::workspace::Workspace;
use expression::expression::Expression;
use std::alloc::{AllocError, Global};
use walks::step_table::StepTable;

impl Workspace {
    // Memory for every entry that fits, with an empty course.
    pub fn new(heap: Global) -> Result<Workspace, AllocError>
        ensures { IfOk result (λ w. course_of w ≡ empty_course) }
    {
        let nodes = Vec::with_capacity(heap, NODES)?;
        let arrows = Vec::with_capacity(heap, ARROWS)?;
        let frames = Vec::with_capacity(heap, FRAMES)?;
        let comparisons = Vec::with_capacity(heap, COMPARISONS)?;
        let outs = Vec::with_capacity(heap, NODES)?;
        let steps = StepTable::new(heap)?;
        Ok(Workspace {
            nodes,
            arrows,
            frames,
            comparisons,
            outs,
            steps,
        })
    }

    // Runs the expression over the source. Where every entry fits, the workspace then holds the
    // course, and the answer is the whole's node for marker 0. Otherwise the answer is the first
    // entry that does not fit, and the workspace holds the empty course.
    pub fn run(
        &mut self,
        source: &Source,
        expression: &Expression,
        classes: &Classes,
    ) -> Result<usize, Full>
        ensures { Ran (forward (by_class classes.now) (graph_of source.now) (tree_of expression.now (whole_of expression.now))) self.new result }
    {
        self.enter_source(source);
        let evaluator = Evaluator {
            expression,
            classes,
            env: Environment::outermost(),
        };
        match evaluator.evaluate(expression.whole(), 0, self) {
            Ok(into) => Ok(into[0]),
            Err(full) => {
                self.clear();
                Err(full)
            }
        }
    }
}
