// What can be asked of a bench, and what it answers.
use crate::refusal::Refusal;
use course::course::{Arrow, Comparison, Frame, Node, Origin};
use rows::row::Row;

// What is asked of a bench. Mark, trial, commit and abandon are asked with a slip.
#[derive(Clone, Copy, Debug, PartialEq, Eq)]
pub enum Request<L> {
    // to open a draft
    Begin,
    // that the row show the label
    Mark(usize, L),
    // what commit would answer
    Trial,
    // to give the source arrows of the edited rows the labels asked
    Commit,
    // to give the draft up
    Abandon,
    // to take the last standing commit back
    Undo,
    // to make the commit that was undone last stand again
    Redo,
    // a row of the view
    Row(usize),
    // a node, an arrow, a frame, a comparison of the course
    Node(usize),
    Arrow(usize),
    Frame(usize),
    Comparison(usize),
    // an arrow of the source
    SourceArrow(usize),
    // how many there are of each
    Counts,
    // whether a draft is open, and how many edits it has
    Draft,
    // an edit of the draft, counted from its lowest row on
    Edit(usize),
    // how many commits stand and are undone
    History,
}

// An edit of a draft: the row, its origin and the label asked.
#[derive(Clone, Copy, Debug, PartialEq, Eq)]
pub struct Edit<L> {
    pub row: usize,
    pub origin: Origin,
    pub asked: L,
}

// How many rows, how many entries of each list of the course, and how many source arrows there are.
#[derive(Clone, Copy, Debug, PartialEq, Eq)]
pub struct Counts {
    pub rows: usize,
    pub nodes: usize,
    pub arrows: usize,
    pub frames: usize,
    pub comparisons: usize,
    pub source_arrows: usize,
}

// How many commits stand, and how many are undone.
#[derive(Clone, Copy, Debug, PartialEq, Eq)]
pub struct Commits {
    pub standing: usize,
    pub undone: usize,
}

// What a bench answers.
// Kept with the refusal as a case: a run of calls is a list of answers, refusals among them.
#[derive(Clone, Copy, Debug, PartialEq, Eq)]
pub enum Answer<L> {
    // begin: a slip of this number
    Begun(u32),
    // mark and abandon: it is done
    Done,
    // trial, commit, undo and redo: how many source arrows are named
    Named(usize),
    // a row, and its label
    Row(Row, L),
    // an entry of the course
    Node(Node),
    Arrow(Arrow),
    Frame(Frame),
    Comparison(Comparison),
    // the tail and the head of a source arrow, and its label
    SourceArrow((usize, usize), L),
    Counts(Counts),
    // how many edits the open draft has, if one is open
    Draft(Option<usize>),
    // the edit, if a draft is open and has it
    Edit(Option<Edit<L>>),
    History(Commits),
    // nothing is done
    Refused(Refusal),
}
