// The bench's fields, and the slip.
use crate::draft::Draft;
use crate::history::History;
use course::source::Source;
use course::workspace::Workspace;
use rows::rows::Rows;

// One opened source with its expression's course and rows, at most one draft, and a history. The
// labels lie in tables of the caller.
#[derive(Drop)]
pub struct Bench {
    // none where nothing is opened
    pub(crate) source: Option<Source>,
    pub(crate) number: u32,
    // how many constants it was opened with
    pub(crate) constants: usize,
    pub(crate) workspace: Workspace,
    pub(crate) rows: Rows,
    // none where no draft is open
    pub(crate) draft: Option<Draft>,
    pub(crate) history: History,
}

// What begin gives: a number that fits the bench while its draft is open. It is neither dropped nor
// copied, so it ends only in commit or abandon.
pub struct Slip {
    pub(crate) number: u32,
}
