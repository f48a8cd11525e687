// What a bench tells: rows, the course, the source.
ghost use Rattle.std.specs.Prelude.{◌≡◌, length, take};
ghost use Rattle.std.specs.List.{slice_get};
ghost use Rattle.editing.specs.declared.request.Request.TheVariants as ask;
ghost use Rattle.editing.specs.declared.request.Answer.TheVariants as answer;
ghost use Rattle.bench.specs.Reading.{Reads, lists_of, said, rows_of, labels_of, row_shown, arrow_shown, ends_of};

use crate::bench::Bench;
use crate::entries::entry_below;
use crate::tables::Tables;
use course::course::{Arrow, Comparison, Frame, Node};
use editing::refusal::Refusal;
use editing::request::Counts;
use kinds::label::Label;
use rows::row::Row;

impl Bench {
    // A row with its label.
    fn shown_row<L: Label>(&self, index: usize, tables: &Tables<L>) -> Option<(Row, L)>
        ensures { result ≡ row_shown (labels_of self.now (lists_of tables.now)) (slice_get (rows_of self.now) index) }
    {
        let row = self.rows.get(index)?;
        let label = self.label_of(row.origin, tables)?;
        Some((row, label))
    }

    // A source arrow, if something is opened and has it, with its label.
    fn shown_arrow<L: Label>(&self, arrow: usize, labels: &[L]) -> Option<((usize, usize), L)>
        ensures { let ends = ends_of self.now.source in
            result ≡ arrow_shown (slice_get ends arrow) (slice_get (take (length ends) labels.now) arrow) }
    {
        let ends = self.source.as_ref()?.ends(arrow)?;
        let label = entry_below(labels, self.count_arrows(), arrow)?;
        Some((ends, label))
    }

    // A row of the view, with its present label.
    pub fn row<L: Label>(&self, index: usize, tables: &Tables<L>) -> Result<(Row, L), Refusal>
        ensures { Reads L.alike (ask.Row index) self.now tables.now (said (λ x. answer.Row x.0 x.1) result) }
    {
        self.ready(tables)?;
        self.shown_row(index, tables).ok_or(Refusal::NoSuchEntry)
    }

    // Kept apart by list: each reading is the checks and one call, and a helper would say no less.
    // A node of the course.
    pub fn node<L: Label>(&self, number: usize, tables: &Tables<L>) -> Result<Node, Refusal>
        ensures { Reads L.alike (ask.Node number) self.now tables.now (said answer.Node result) }
    {
        self.ready(tables)?;
        self.workspace.node(number).ok_or(Refusal::NoSuchEntry)
    }

    // An arrow of the course.
    pub fn arrow<L: Label>(&self, number: usize, tables: &Tables<L>) -> Result<Arrow, Refusal>
        ensures { Reads L.alike (ask.Arrow number) self.now tables.now (said answer.Arrow result) }
    {
        self.ready(tables)?;
        self.workspace.arrow(number).ok_or(Refusal::NoSuchEntry)
    }

    // A frame of the course.
    pub fn frame<L: Label>(&self, number: usize, tables: &Tables<L>) -> Result<Frame, Refusal>
        ensures { Reads L.alike (ask.Frame number) self.now tables.now (said answer.Frame result) }
    {
        self.ready(tables)?;
        self.workspace.frame(number).ok_or(Refusal::NoSuchEntry)
    }

    // A comparison of the course.
    pub fn comparison<L: Label>(
        &self,
        number: usize,
        tables: &Tables<L>,
    ) -> Result<Comparison, Refusal>
        ensures { Reads L.alike (ask.Comparison number) self.now tables.now (said answer.Comparison result) }
    {
        self.ready(tables)?;
        self.workspace
            .comparison(number)
            .ok_or(Refusal::NoSuchEntry)
    }

    // The tail and the head of a source arrow, and its present label.
    pub fn source_arrow<L: Label>(
        &self,
        arrow: usize,
        tables: &Tables<L>,
    ) -> Result<((usize, usize), L), Refusal>
        ensures { Reads L.alike (ask.SourceArrow arrow) self.now tables.now (said (λ x. answer.SourceArrow x.0 x.1) result) }
    {
        self.ready(tables)?;
        self.shown_arrow(arrow, tables.labels)
            .ok_or(Refusal::NoSuchArrow)
    }

    // How many rows, entries of the course and source arrows there are.
    pub fn counts<L: Label>(&self, tables: &Tables<L>) -> Result<Counts, Refusal>
        ensures { Reads L.alike ask.Counts self.now tables.now (said answer.Counts result) }
    {
        self.ready(tables)?;
        let sizes = self.workspace.sizes();
        Ok(Counts {
            rows: self.rows.count(),
            nodes: sizes.nodes,
            arrows: sizes.arrows,
            frames: sizes.frames,
            comparisons: sizes.comparisons,
            source_arrows: self.count_arrows(),
        })
    }
}
