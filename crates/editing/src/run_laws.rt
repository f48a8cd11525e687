// The laws of the bench. Each function here says one of them.
ghost use Rattle.editing.specs.Cases.{WorkedDrafts};
ghost use Rattle.editing.specs.Editor.{EmptyCommit, TakenCommit, UndoRedo, RedoUndo};
ghost use Rattle.editing.specs.Law.{RunLaw};

use kinds::label::Label;

// Whatever calls follow one another from an opening, with any slips, rows and labels: the present
// labels, the course and rows, what trial and commit refuse, and every answer are as the rules say.
fn run_law<L: Label>()
    ensures { RunLaw L.alike L.meaning }
{}

// A commit of nothing changes nothing; after a taken commit the view shows exactly what was asked.
fn editor_law<L: Label>()
    ensures nothing { EmptyCommit L.alike L.meaning }
    ensures taken { TakenCommit L.alike L.meaning }
{}

// Undo followed by redo, and redo followed by undo, restore every label.
fn history_law<L: Label>()
    ensures undone { UndoRedo L.alike L.meaning }
    ensures redone { RedoUndo L.alike L.meaning }
{}

// The worked cases of drafts on two small cabinets.
fn worked_drafts()
    ensures { WorkedDrafts }
{}
