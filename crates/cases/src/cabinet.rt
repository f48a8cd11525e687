// Cabinets with text labels, put together from what is written.
use crate::written::{read_arrow, read_label, read_labels, read_places};
use expression::raw::RawPlace;
use kinds::text::TextLabel;
use std::alloc::Global;

// A cabinet as it is written: how many nodes its source has, and its arrows, the places of its
// expression and the constants, each parted by spaces.
#[derive(Clone, Copy)]
pub struct Written {
    pub nodes: usize,
    pub arrows: &'static str,
    pub places: &'static str,
    pub constants: &'static str,
}

// A source with its labels, and an expression with its constants. The arrows' ends and their labels
// are two lists, since that is how a view takes them.
#[derive(Drop)]
pub struct Cabinet {
    pub nodes: usize,
    pub arrows: Vec<(usize, usize)>,
    pub labels: Vec<TextLabel>,
    pub places: Vec<RawPlace>,
    pub constants: Vec<TextLabel>,
}

impl Cabinet {
    pub fn read(heap: Global, written: &Written) -> anyhow::Result<Cabinet> {
        let mut cabinet = Cabinet {
            nodes: written.nodes,
            arrows: Vec::new(heap),
            labels: Vec::new(heap),
            places: read_places(heap, written.places)?,
            constants: read_labels(heap, written.constants)?,
        };
        for word in written.arrows.split_whitespace() {
            let (ends, label) = read_arrow(word)?;
            cabinet.add_arrow(ends, label)?;
        }
        Ok(cabinet)
    }

    fn add_arrow(&mut self, ends: (usize, usize), label: TextLabel) -> anyhow::Result<()> {
        self.arrows.push(ends)?;
        self.labels.push(label)?;
        Ok(())
    }

    // So many more arrows with these ends, all with one label.
    pub fn add_arrows(&mut self, count: usize, ends: (usize, usize)) -> anyhow::Result<()> {
        let label = read_label("Loop")?;
        for _ in 0..count {
            self.add_arrow(ends, label)?;
        }
        Ok(())
    }

    // So many more arrows from the root to itself, each with a label of its own.
    pub fn add_apart(&mut self, heap: Global, count: usize) -> anyhow::Result<()> {
        for k in 0..count {
            let text = format!(in heap; "Loop{k}")?;
            self.add_arrow((0, 0), read_label(text.as_str())?)?;
        }
        Ok(())
    }

    // An arrow from each node to the next and from the last to the root, all with one label.
    pub fn add_ring(&mut self) -> anyhow::Result<()> {
        let label = read_label("Ring")?;
        for node in 1..self.nodes {
            self.add_arrow((node - 1, node), label)?;
        }
        self.add_arrow((self.nodes.saturating_sub(1), 0), label)
    }
}
