// The rows of a view: listed, counted and read.
ghost use Rattle.std.specs.Prelude.{◌≡◌, ◌≤◌, vec_len, vec_capacity};

use crate::blanks::link;
use crate::fitting::fit;
use crate::row::{ROWS, Row, RowsFault};
use crate::shown::{Showing, leads};
use course::course::Arrow;
use std::alloc::{AllocError, Global};
use walks::step_table::StepTable;
use walks::visits::Visits;
use walks::walk::{walk, walk_again};

// The rows that were listed last and the blank arrows, in memory that is taken once, for as many as
// there can be.
#[derive(Drop)]
pub struct Rows {
    rows: Vec<Row>,
    blanks: StepTable,
    ghost room: { 1024 ≤ vec_capacity rows },
    ghost few: { vec_len rows ≤ 1024 },
}

impl Rows {
    ghost use Rattle.std.specs.Prelude.{true, false, [], length, filter, ◌==◌, slice_index_or, IfOk};
    ghost use Rattle.std.specs.List.{flat_map, slice_get};
    ghost use Rattle.walks.specs.Reach.{from};
    ghost use Rattle.rows.specs.Growing.{Grown};
    ghost use Rattle.rows.specs.Heads.{rows_by};
    ghost use Rattle.rows.specs.Links.{Fit, Linked};
    ghost use Rattle.rows.specs.Listing.{fits, listing, Answers};
    ghost use Rattle.rows.specs.Rows.{rows_at, rows_of};
    ghost use Rattle.rows.specs.RowsLaw.{RowsLaw};

    // No rows yet.
    pub fn new(heap: Global) -> Result<Rows, AllocError>
        ensures { IfOk result (λ rows. rows.rows.items ≡ []) }
    {
        let rows = Vec::with_capacity(heap, ROWS)?;
        let blanks = StepTable::new(heap)?;
        Ok(Rows { rows, blanks })
    }

    // Whether there is room for no more rows.
    fn is_full(&self) -> bool
        ensures { result ≡ (length self.now.rows.items == 1024) }
    {
        self.count() == ROWS
    }

    // Adds the rows of a node, by the marks of the nodes near it.
    fn list_node(
        &mut self,
        arrows: &[Arrow],
        near: &[bool; 1024],
        node: usize,
    ) -> Result<(), RowsFault>
        ensures rows { Grown self.old.rows.items (rows_by near.now node arrows.now) self.new.rows.items result }
        ensures blanks { self.new.blanks ≡ self.old.blanks }
    {
        for arrow in arrows {
            if leads(*arrow, near) {
                if self.is_full() {
                    return Err(RowsFault::TooMany);
                }
                self.rows.push_reserved(Row {
                    node,
                    head: arrow.head,
                    origin: arrow.origin,
                    place: arrow.place,
                    frame: arrow.frame,
                });
            }
        }
        Ok(())
    }

    // Adds the rows of the nodes that are marked, upwards.
    fn list_marked(
        &mut self,
        arrows: &[Arrow],
        nodes: usize,
        shown: &[bool; 1024],
    ) -> Result<(), RowsFault>
        requires fit { Fit arrows.now }
        requires linked { Linked arrows.now self.old.blanks }
        requires nodes { nodes ≤ 1024 }
        ensures { Grown self.old.rows.items (flat_map (rows_at arrows.now) (filter (λ v. slice_index_or shown.now v false) (from 0 nodes))) self.new.rows.items result }
    {
        let mut near = Visits::new();
        for (node, is_shown) in shown[..nodes].iter().enumerate() {
            if *is_shown {
                walk_again(&self.blanks, node, &mut near);
                self.list_node(arrows, near.marks(), node)?;
            }
        }
        Ok(())
    }

    // Adds the rows that the arrows show from the root.
    // Kept with arrows, nodes and root apart: the call that lists rows is handed them so.
    fn list_shown(&mut self, arrows: &[Arrow], nodes: usize, root: usize) -> Result<(), RowsFault>
        requires { fits arrows.now nodes root ≡ true }
        ensures { Grown self.old.rows.items (rows_of arrows.now nodes root) self.new.rows.items result }
    {
        link(arrows, &mut self.blanks);
        let blanks = &self.blanks;
        let shown = walk(&Showing { arrows, blanks }, root);
        self.list_marked(arrows, nodes, &shown)
    }

    // Lists the rows that the arrows show from the root, in the place of those that were listed.
    // Arrows, nodes and a root that do not fit are refused, and so are more than 1,024 rows. A
    // refusal leaves no rows.
    pub fn list(&mut self, arrows: &[Arrow], nodes: usize, root: usize) -> Result<(), RowsFault>
        ensures answer { Answers (listing arrows.now nodes root) self.new.rows.items result }
        ensures law { RowsLaw }
    {
        self.rows.clear();
        if !fit(arrows, nodes, root) {
            return Err(RowsFault::Unfit);
        }
        let answer = self.list_shown(arrows, nodes, root);
        if answer.is_err() {
            self.rows.clear();
        }
        answer
    }

    // The rows.
    pub fn as_slice(&self) -> &[Row]
        ensures { result.now ≡ self.now.rows.items }
    {
        self.rows.as_slice()
    }

    // How many rows there are.
    pub fn count(&self) -> usize
        ensures value { result ≡ length self.now.rows.items }
        ensures few { result ≤ 1024 }
    {
        self.rows.len()
    }

    // The row at `index`.
    pub fn get(&self, index: usize) -> Option<Row>
        ensures { result ≡ slice_get self.now.rows.items index }
    {
        self.rows.get(index).copied()
    }
}

#[cfg(test)]
mod tests {
    use super::*;
    use course::course::Origin;
    use std::test::Fail;

    // An arrow with this origin, of place 0 in frame 0.
    fn arrow(tail: usize, head: usize, origin: Origin) -> Arrow {
        Arrow {
            tail,
            head,
            origin,
            place: 0,
            frame: 0,
        }
    }

    // Blank arrows from each of 32 nodes to node 0, arrows from node 0 to each of them, and one arrow
    // from node 31 with the last origin.
    fn crowd(last: Origin) -> [Arrow; 65] {
        let mut arrows = [arrow(31, 0, last); 65];
        for i in 0..32 {
            arrows[i] = arrow(i, 0, Origin::Blank);
            arrows[32 + i] = arrow(0, i, Origin::Source(i));
        }
        arrows
    }

    // The node and the head of a row.
    fn ends(rows: &Rows, index: usize) -> Option<(usize, usize)> {
        let row = rows.get(index)?;
        Some((row.node, row.head))
    }

    #[test]
    fn lists_by_node_and_then_by_arrow(rt: HostRuntime) -> Result<(), Fail> {
        let mut rows = Rows::new(rt.alloc())?;
        let arrows = [
            arrow(3, 1, Origin::Source(0)),
            arrow(2, 3, Origin::Blank),
            arrow(2, 2, Origin::Constant(0)),
            arrow(1, 2, Origin::Source(1)),
            arrow(0, 1, Origin::Source(2)),
        ];
        assert!(rt; rows.list(&arrows, 4, 2).is_ok());
        assert_eq!(rt; rows.count(), 3);
        assert_eq!(rt; ends(&rows, 0), Some((1, 2)));
        assert_eq!(rt; ends(&rows, 1), Some((2, 1)));
        assert_eq!(rt; ends(&rows, 2), Some((2, 2)));
        assert_eq!(rt; ends(&rows, 3), None);
        Ok(())
    }

    #[test]
    fn holds_1024_rows_and_no_more(rt: HostRuntime) -> Result<(), Fail> {
        let mut rows = Rows::new(rt.alloc())?;
        let full = crowd(Origin::Blank);
        assert!(rt;
            rows.list(&full, 32, 0).is_ok(),
            "each of 32 nodes has 32 rows"
        );
        assert_eq!(rt; rows.count(), 1024);
        let over = crowd(Origin::Source(32));
        assert!(rt; rows.list(&over, 32, 0).is_err(), "node 31 has one more");
        assert_eq!(rt; rows.count(), 0);
        Ok(())
    }

    #[test]
    fn refuses_a_root_that_is_no_node(rt: HostRuntime) -> Result<(), Fail> {
        let mut rows = Rows::new(rt.alloc())?;
        assert!(rt; rows.list(&[], 1, 0).is_ok(), "a node alone has no rows");
        assert_eq!(rt; rows.count(), 0);
        assert!(rt; rows.list(&[], 1, 1).is_err());
        Ok(())
    }
}
