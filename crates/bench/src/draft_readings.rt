// What a bench tells of its draft and its history.
ghost use Rattle.editing.specs.declared.request.Request.TheVariants as ask;
ghost use Rattle.editing.specs.declared.request.Answer.TheVariants as answer;
ghost use Rattle.bench.specs.Reading.{Reads, said};

use crate::bench::Bench;
use crate::tables::Tables;
use editing::refusal::Refusal;
use editing::request::{Commits, Edit};
use kinds::label::Label;

impl Bench {
    // How many edits the draft has; none where no draft is open.
    pub fn draft<L: Label>(&self, tables: &Tables<L>) -> Result<Option<usize>, Refusal>
        ensures { Reads L.alike ask.Draft self.now tables.now (said answer.Draft result) }
    {
        self.ready(tables)?;
        Ok(self.draft.as_ref().map(|draft| draft.rows.len()))
    }

    // An edit of the draft, counted from its lowest row on; none where there is none.
    pub fn edit<L: Label>(
        &self,
        index: usize,
        tables: &Tables<L>,
    ) -> Result<Option<Edit<L>>, Refusal>
        ensures { Reads L.alike (ask.Edit index) self.now tables.now (said answer.Edit result) }
    {
        self.ready(tables)?;
        Ok(
            self.draft
                .as_ref()
                .and_then(|draft| draft.edit(index, &self.rows, tables.asked)),
        )
    }

    // How many commits stand, and how many are undone.
    pub fn commits<L: Label>(&self, tables: &Tables<L>) -> Result<Commits, Refusal>
        ensures { Reads L.alike ask.History self.now tables.now (said answer.History result) }
    {
        self.ready(tables)?;
        Ok(Commits {
            standing: self.history.standing,
            undone: self.history.undone(),
        })
    }
}
