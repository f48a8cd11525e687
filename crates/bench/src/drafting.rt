// Opening a draft and giving it up.
ghost use Rattle.std.specs.Prelude.{◌≡◌, ◌==◌, is_some};
ghost use Rattle.editing.specs.declared.request.Request.TheVariants as ask;
ghost use Rattle.bench.specs.Reading.{lists_of, short, ready as readiness, admitted, Steps, begun, dropped};

use crate::bench::{Bench, Slip};
use crate::draft::Draft;
use crate::tables::Tables;
use editing::refusal::Refusal;
use kinds::label::Label;

// A refused call that takes a slip hands it back.
pub struct Returned {
    pub refusal: Refusal,
    pub slip: Slip,
}

impl Bench {
    // The first checks of a call with a slip: it is ready, a draft is open, and the slip has the
    // bench's number.
    pub(crate) fn admit<L: Label>(&self, slip: &Slip, tables: &Tables<L>) -> Result<(), Refusal>
        ensures { result ≡ admitted (readiness (short self.now (lists_of tables.now)) (is_some self.now.source)) (slip.now.number == self.now.number) (is_some self.now.draft) }
    {
        self.ready(tables)?;
        if self.draft.is_none() || slip.number != self.number {
            return Err(Refusal::SlipUnfit);
        }
        Ok(())
    }

    // Opens a draft without edits.
    pub fn begin<L: Label>(&mut self, tables: &Tables<L>) -> Result<Slip, Refusal>
        ensures { Steps L.alike 0 ask.Begin self.old (lists_of tables.now) self.new (lists_of tables.now) (begun result) }
    {
        self.ready(tables)?;
        if self.draft.is_some() {
            return Err(Refusal::DraftOpen);
        }
        self.draft = Some(Draft::new());
        Ok(Slip {
            number: self.number,
        })
    }

    // Closes the draft, and nothing else changes. A refusal hands the slip back.
    pub fn abandon<L: Label>(&mut self, slip: Slip, tables: &Tables<L>) -> Result<(), Returned>
        ensures { Steps L.alike slip.number ask.Abandon self.old (lists_of tables.now) self.new (lists_of tables.now) (dropped result) }
    {
        if let Err(refusal) = self.admit(&slip, tables) {
            return Err(Returned { refusal, slip });
        }
        let Slip { number: _ } = slip;
        self.draft = None;
        Ok(())
    }
}
