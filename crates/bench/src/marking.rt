// Asking a label for a row.
ghost use Rattle.std.specs.Prelude.{◌≡◌};
ghost use Rattle.editing.specs.declared.request.Request.TheVariants as ask;
ghost use Rattle.bench.specs.Reading.{Steps, told};

use crate::bench::{Bench, Slip};
use crate::tables::Tables;
use editing::refusal::Refusal;
use kinds::label::Label;

impl Bench {
    // Asks the label for the row, in the place of what was asked for it. Asking the label that the
    // row shows removes its edit.
    // Kept with the four tables apart: one is written, and the others are lent for reading only.
    pub fn mark<L: Label>(
        &mut self,
        slip: &Slip,
        row: usize,
        label: L,
        labels: &[L],
        constants: &[L],
        asked: &mut [L],
        history: &[L],
    ) -> Result<(), Refusal>
        ensures { Steps L.alike slip.now.number (ask.Mark row label)
            self.old (record { labels = labels.now; constants = constants.now; asked = asked.old; history = history.now })
            self.new (record { labels = labels.now; constants = constants.now; asked = asked.new; history = history.now })
            (told result) }
    {
        let tables = Tables {
            labels,
            constants,
            asked,
            history,
        };
        self.admit(slip, &tables)?;
        let found = self.rows.get(row).ok_or(Refusal::NoSuchEntry)?;
        let shown = self.label_of(found.origin, &tables);
        let draft = self.draft.as_mut().ok_or(Refusal::SlipUnfit)?;
        if shown.is_some_and(|shown| shown.same(&label)) {
            draft.remove(row, asked);
        } else {
            draft.put(row, label, asked)?;
        }
        Ok(())
    }
}
