// The tables that every call is handed.
ghost use Rattle.std.specs.Prelude.{◌≡◌, length, is_some};
ghost use Rattle.bench.specs.Reading.{ends_of, lists_of, short, ready as readiness};

use crate::bench::Bench;
use crate::draft::EDITS;
use editing::refusal::Refusal;
use kinds::label::Label;

// How many labels of the draft's edits, and how many labels of the history a bench needs.
pub const ASKED: usize = EDITS;

pub const HISTORY: usize = 512;

// The labels of the source arrows, the constants, the labels that the draft asks, and the history's.
#[derive(Clone, Copy)]
pub struct Tables<'a, L> {
    pub labels: &'a [L],
    pub constants: &'a [L],
    pub asked: &'a [L],
    pub history: &'a [L],
}

impl<L: Label> Tables<'_, L> {
    // Whether a table is shorter than the bench needs.
    fn is_short(&self, bench: &Bench) -> bool
        ensures { result ≡ short bench.now (lists_of self.now) }
    {
        self.labels.len() < bench.count_arrows()
            || self.constants.len() < bench.constants
            || self.asked.len() < ASKED
            || self.history.len() < HISTORY
    }
}

impl Bench {
    // How many arrows the source has; 0 where nothing is opened.
    pub(crate) fn count_arrows(&self) -> usize
        ensures { result ≡ length (ends_of self.now.source) }
    {
        self.source.as_ref().map_or(0, |source| source.arrows())
    }

    // The first checks of every call: the tables are long enough, and something is opened.
    pub(crate) fn ready<L: Label>(&self, tables: &Tables<L>) -> Result<(), Refusal>
        ensures { result ≡ readiness (short self.now (lists_of tables.now)) (is_some self.now.source) }
    {
        if tables.is_short(self) {
            return Err(Refusal::ShortTable);
        }
        if self.source.is_none() {
            return Err(Refusal::NothingOpened);
        }
        Ok(())
    }
}
