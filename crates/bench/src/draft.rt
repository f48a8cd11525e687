// The edits of a draft: put in, taken out, read.
ghost use Rattle.std.specs.Prelude.{◌≡◌, ◌≤◌, [], List, length, OnOk, OnErr};
ghost use Rattle.arrayvec.specs.ArrayVec.{array_vec_len};

use crate::entries::{find, insert_at, remove_at};
use arrayvec::ArrayVec;
use course::course::Origin;
use editing::refusal::Refusal;
use editing::request::Edit;
use kinds::label::Label;
use rows::rows::Rows;

// How many edits a draft holds.
pub const EDITS: usize = 32;

// The numbers of the edited rows, upwards. They lie in the draft itself, so that no edit can fail
// for want of memory. The labels asked for them lie in a table of the caller, in the same order.
#[derive(Drop)]
pub struct Draft {
    pub(crate) rows: ArrayVec<usize, 32>,
    ghost few: { array_vec_len rows ≤ 32 },
}

impl Draft {
    ghost use Rattle.std.specs.List.{slice_get};
    ghost use Rattle.rows.specs.declared.row.Row.{Row};
    ghost use Rattle.editing.specs.Model.{insert, remove};
    ghost use Rattle.bench.specs.Edits.{edit_for, edits_of, room_for};

    // A draft without edits.
    pub(crate) fn new() -> Draft
        ensures { result.rows.items ≡ [] }
    {
        Draft {
            rows: ArrayVec::new(),
        }
    }

    // An edit by its number, counted from the lowest row on. The draft's rows are those handed in.
    pub(crate) fn edit<L: Label>(&self, index: usize, rows: &Rows, asked: &[L]) -> Option<Edit<L>>
        ensures { result ≡ slice_get (edits_of rows.now.rows.items self.now asked.now) index }
    {
        let row = self.rows.get(index).copied()?;
        let asked = asked.get(index).copied()?;
        let origin = rows.get(row).map_or(Origin::Blank, |row| row.origin);
        Some(Edit { row, origin, asked })
    }

    // Removes the row's edit, if it has one.
    pub(crate) fn remove<L: Label>(&mut self, row: usize, asked: &mut [L])
        requires { 32 ≤ length asked.old }
        ensures { (items : List Row) → edits_of items self.new asked.new ≡ remove row (edits_of items self.old asked.old) }
    {
        if let Ok(at) = find(&self.rows, row) {
            remove_at(asked, self.rows.len(), at);
            self.rows.remove(at);
        }
    }

    // Asks the label for the row, in the place of what was asked for it. A 33rd edit is refused.
    pub(crate) fn put<L: Label>(
        &mut self,
        row: usize,
        label: L,
        asked: &mut [L],
    ) -> Result<(), Refusal>
        requires { 32 ≤ length asked.old }
        ensures answer { (items : List Row) → result ≡ room_for row (edits_of items self.old asked.old) }
        ensures ok { OnOk result ((items : List Row) → edits_of items self.new asked.new ≡ insert (edit_for items row label) (edits_of items self.old asked.old)) }
        ensures same_draft { OnErr result (self.new ≡ self.old) }
        ensures same_asked { OnErr result (asked.new ≡ asked.old) }
    {
        match find(&self.rows, row) {
            Ok(at) => asked[at] = label,
            Err(_) if self.rows.is_full() => return Err(Refusal::FullDraft),
            Err(at) => {
                insert_at(asked, self.rows.len(), at, label);
                self.rows.insert(at, row);
            }
        }
        Ok(())
    }
}
