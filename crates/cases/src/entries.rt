// Prints the entries of a view's course, and its rows.
use crate::screen::Screen;
use course::course::Origin;
use kinds::filed::{FiledLabel, TEXT_SIZE};
use std::fmt;
use std::str::from_utf8;

// The label of an origin, if there is one.
fn label_of<L: FiledLabel>(labels: &[L], constants: &[L], origin: Origin) -> Option<L> {
    match origin {
        Origin::Blank => None,
        Origin::Source(arrow) => labels.get(arrow).copied(),
        Origin::Constant(constant) => constants.get(constant).copied(),
    }
}

impl Screen<'_> {
    // Prints how many entries and rows there are.
    pub fn print_sizes(&self) -> anyhow::Result<()> {
        let sizes = self.view.sizes();
        let rows = self.view.row_count();
        println!(self.rt; "{sizes} rows={rows}")?;
        Ok(())
    }

    // Prints entries, each after its name and its number.
    fn print_entries<E: fmt::Display>(&self, name: &str, entries: &[E]) -> anyhow::Result<()> {
        for (i, entry) in entries.iter().enumerate() {
            println!(self.rt; "{name} {i} {entry}")?;
        }
        Ok(())
    }

    // Prints the node that is shown first and every entry.
    pub fn print_course(&self) -> anyhow::Result<()> {
        if let Some(node) = self.view.first_node() {
            println!(self.rt; "shown {node}")?;
        }
        self.print_entries("node", self.view.nodes())?;
        self.print_entries("arrow", self.view.arrows())?;
        self.print_entries("frame", self.view.frames())?;
        self.print_entries("comparison", self.view.comparisons())
    }

    // Prints every row with its label.
    pub fn print_rows<L: FiledLabel>(&self, labels: &[L], constants: &[L]) -> anyhow::Result<()> {
        for (i, row) in self.view.rows().iter().enumerate() {
            let Some(label) = label_of(labels, constants, row.origin) else {
                continue;
            };
            let mut buffer = [0u8; TEXT_SIZE];
            let len = label.write_text(&mut buffer).unwrap_or(0).min(TEXT_SIZE);
            let text = from_utf8(&buffer[..len])?;
            println!(self.rt; "row {i} {row} label={text}")?;
        }
        Ok(())
    }
}
