// Cabinets of many arrows with the same ends.
use crate::cabinet::{Cabinet, Written};
use std::alloc::Global;

// So many nodes, so many arrows with these ends, and an expression with the constant `Site`.
#[derive(Clone, Copy)]
pub struct Loops {
    pub name: &'static str,
    pub nodes: usize,
    pub count: usize,
    pub ends: (usize, usize),
    pub places: &'static str,
}

impl Loops {
    // The arrows lead from the root to itself.
    pub fn at_root(name: &'static str, nodes: usize, count: usize, places: &'static str) -> Loops {
        Loops {
            name,
            nodes,
            count,
            ends: (0, 0),
            places,
        }
    }

    pub fn cabinet(&self, heap: Global) -> anyhow::Result<Cabinet> {
        let written = Written {
            nodes: self.nodes,
            arrows: "",
            places: self.places,
            constants: "Site",
        };
        let mut cabinet = Cabinet::read(heap, &written)?;
        cabinet.add_arrows(self.count, self.ends)?;
        Ok(cabinet)
    }
}
