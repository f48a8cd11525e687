// Making a view.
ghost use Rattle.std.specs.Prelude.{◌≡◌, ◌<◌, length, IfOk, None as Nothing, Err as Refused};
ghost use Rattle.expression.specs.Admitted.{tree_of, whole_of};
ghost use Rattle.course.specs.Forward.{forward};
ghost use Rattle.course.specs.Labels.{by_class};
ghost use Rattle.course.specs.Sources.{graph_of};
ghost use Rattle.course.specs.View.{course_of};
ghost use Rattle.view.specs.Laws.{RunLaws, LabelLaws};
ghost use Rattle.view.specs.View.{seen, listed, pictured, showing, Answered};

use crate::class_table::LabelTables;
use crate::fault::ViewFault;
use course::classes::Classes;
use course::source::Source;
use course::workspace::Workspace;
use expression::expression::Expression;
use kinds::label::Label;
use rows::rows::Rows;
use std::alloc::{AllocError, Global};

// The course of an expression over a source and its rows, in memory that is taken once. Where
// nothing is shown, what they hold does not count.
#[derive(Drop)]
pub struct View {
    pub(crate) workspace: Workspace,
    pub(crate) rows: Rows,
    // the node that is shown first, the whole's node for marker 0
    pub(crate) shown: Option<usize>,
}

impl View {
    // A view that shows nothing yet, with memory for whatever it will show.
    pub fn new(heap: Global) -> Result<View, AllocError>
        ensures { IfOk result (λ v. seen v ≡ Nothing) }
    {
        let workspace = Workspace::new(heap)?;
        let rows = Rows::new(heap)?;
        Ok(View {
            workspace,
            rows,
            shown: None,
        })
    }

    // Shows nothing, and answers the refusal.
    fn refuse(&mut self, fault: ViewFault) -> Result<(), ViewFault>
        ensures answer { result ≡ Refused fault }
        ensures after { seen self.new ≡ Nothing }
    {
        self.shown = None;
        Err(fault)
    }

    // Shows the course with its rows from a node of it on; nothing where there are too many.
    fn show_rows(&mut self, node: usize) -> Result<(), ViewFault>
        requires { node < length (course_of self.old.workspace).nodes }
        ensures { Answered (listed node (course_of self.old.workspace)) (seen self.old) (seen self.new) result }
    {
        let nodes = self.workspace.nodes();
        let arrows = self.workspace.arrows();
        match self.rows.list(arrows, nodes.len(), node) {
            Ok(()) => {
                self.shown = Some(node);
                Ok(())
            }
            // The ends of a course's arrows are its nodes, so there are too many rows.
            Err(_) => self.refuse(ViewFault::TooManyRows),
        }
    }

    // Shows the run over class numbers.
    fn show_run(
        &mut self,
        source: &Source,
        expression: &Expression,
        classes: &Classes,
    ) -> Result<(), ViewFault>
        ensures { Answered (pictured (forward (by_class classes.now) (graph_of source.now) (tree_of expression.now (whole_of expression.now)))) (seen self.old) (seen self.new) result }
    {
        match self.workspace.run(source, expression, classes) {
            Ok(node) => self.show_rows(node),
            Err(full) => self.refuse(ViewFault::Full(full)),
        }
    }

    // Shows what the expression makes of the source, whose arrows have these labels; the constants
    // are the expression's. Labels are told apart by `same` alone.
    pub fn show<L: Label>(
        &mut self,
        source: &Source,
        expression: &Expression,
        labels: &[L],
        constants: &[L],
    ) -> Result<(), ViewFault>
        ensures answer { Answered (showing L.alike (graph_of source.now) expression.now.constants (tree_of expression.now (whole_of expression.now)) labels.now constants.now) (seen self.old) (seen self.new) result }
        ensures run_laws { RunLaws }
        ensures label_laws { LabelLaws L.alike L.meaning }
    {
        let arrows = source.arrows();
        let fixed = expression.constants();
        if labels.len() < arrows || constants.len() < fixed {
            return Err(ViewFault::ShortTable);
        }
        let tables = LabelTables {
            labels: &labels[..arrows],
            constants: &constants[..fixed],
        };
        self.show_run(source, expression, &tables.classes())
    }
}
