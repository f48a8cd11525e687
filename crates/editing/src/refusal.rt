// Why a call of the bench is refused.
ghost use Rattle.std.specs.Prelude.{◌≡◌};
ghost use Rattle.editing.specs.Refusals.{number, names};

use course::course::Full;

// Two edited rows of one source arrow that are asked different labels: the lowest edited row whose
// arrow a lower edited row asks otherwise, and the lowest edited row of that arrow.
#[derive(Clone, Copy, Debug, PartialEq, Eq)]
pub struct Clash {
    pub row: usize,
    pub lowest: usize,
}

// The first comparison of the course that the labels asked would turn: its number, its place and
// frame, and the lowest edited row on a side of it.
#[derive(Clone, Copy, Debug, PartialEq, Eq)]
pub struct Turn {
    pub comparison: usize,
    pub place: usize,
    pub frame: usize,
    pub row: usize,
}

// A refusal, with what it names.
#[derive(Clone, Copy, Debug, PartialEq, Eq)]
pub enum Refusal {
    // a table handed in is too short
    ShortTable,
    // the source has no node, or more than 128, or more than 256 arrows
    SourceSize,
    // the lowest source arrow with an end that is no node
    LooseArrow(usize),
    // the first entry of the course that does not fit
    CourseFull(Full),
    // the view has more than 1,024 rows
    TooManyRows,
    // nothing is opened
    NothingOpened,
    // there is no such row or entry of the course
    NoSuchEntry,
    // a draft holds no more than 32 edits
    FullDraft,
    // there is no such source arrow
    NoSuchArrow,
    // the draft has no edit
    NoEdit,
    // the lowest edited row whose label is a constant
    ConstantRow(usize),
    // one arrow is asked two labels
    Clashes(Clash),
    // a comparison would come out otherwise
    Turns(Turn),
    // the history has no room for the commit
    FullHistory,
    // no commit stands
    NothingStanding,
    // no commit is undone
    NothingUndone,
    // a draft is open
    DraftOpen,
    // the slip does not fit the bench, or no draft is open
    SlipUnfit,
}

impl Refusal {
    // The number under which the refusal is reported.
    pub fn number(self) -> usize
        ensures { result ≡ number self }
    {
        match self {
            Refusal::ShortTable => 10,
            Refusal::SourceSize => 16,
            Refusal::LooseArrow(_) => 17,
            Refusal::CourseFull(_) => 18,
            Refusal::TooManyRows => 19,
            Refusal::NothingOpened => 20,
            Refusal::NoSuchEntry => 21,
            Refusal::FullDraft => 22,
            Refusal::NoSuchArrow => 23,
            Refusal::NoEdit => 30,
            Refusal::ConstantRow(_) => 31,
            Refusal::Clashes(_) => 32,
            Refusal::Turns(_) => 33,
            Refusal::FullHistory => 34,
            Refusal::NothingStanding => 40,
            Refusal::NothingUndone => 41,
            Refusal::DraftOpen => 42,
            Refusal::SlipUnfit => 43,
        }
    }

    // The numbers that the refusal names, in the order in which they are reported.
    pub fn names(self) -> [Option<usize>; 4]
        ensures { result ≡ names self }
    {
        match self {
            Refusal::LooseArrow(arrow) => [Some(arrow), None, None, None],
            Refusal::CourseFull(full) => [
                Some(full.place),
                Some(full.frame),
                Some(full.list.number()),
                None,
            ],
            Refusal::ConstantRow(row) => [Some(row), None, None, None],
            Refusal::Clashes(clash) => [Some(clash.row), Some(clash.lowest), None, None],
            Refusal::Turns(turn) => [
                Some(turn.comparison),
                Some(turn.place),
                Some(turn.frame),
                Some(turn.row),
            ],
            _ => [None; 4],
        }
    }
}
