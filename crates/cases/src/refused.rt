// Sources and tables that are refused.
use crate::cabinet::{Cabinet, Written};
use crate::loops::Loops;
use crate::screen::{Detail, Screen, admit_places};
use anyhow::Context;
use course::source::Source;

// A cabinet of one arrow and one constant.
fn written(arrows: &'static str, constants: &'static str) -> Written {
    Written {
        nodes: 2,
        arrows,
        places: "G,0 E,c0,0",
        constants,
    }
}

// Shows such a cabinet with the labels and the constants of another; what was shown before stays
// where these are too few.
fn show_short(screen: &mut Screen, name: &str, tables: &Written) -> anyhow::Result<()> {
    println!(screen.rt; "case {name}")?;
    let heap = screen.rt.alloc();
    let cabinet = Cabinet::read(heap, &written("0,1,North", "Site"))?;
    let tables = Cabinet::read(heap, tables)?;
    let expression = admit_places(&cabinet)?;
    let source = Source::new(cabinet.nodes, cabinet.arrows.as_slice()).context(
        "a source is refused",
    )?;
    screen.show_labelled(
        &source,
        &expression,
        tables.labels.as_slice(),
        tables.constants.as_slice(),
        Detail::Sizes,
    )
}

// Shows so many nodes with so many arrows from the root to itself.
fn show_counts(screen: &mut Screen) -> anyhow::Result<()> {
    let cases = [
        Loops::at_root("128 nodes and 256 arrows", 128, 256, "G,0"),
        Loops::at_root("no node", 0, 0, "G,0"),
        Loops::at_root("129 nodes", 129, 0, "G,0"),
        Loops::at_root("257 arrows", 1, 257, "G,0"),
    ];
    for case in &cases {
        let cabinet = case.cabinet(screen.rt.alloc())?;
        screen.show_cabinet(case.name, &cabinet, Detail::Sizes)?;
    }
    Ok(())
}

// Shows all of them.
pub fn show_all(screen: &mut Screen) -> anyhow::Result<()> {
    show_counts(screen)?;
    let loose = Written {
        nodes: 2,
        arrows: "0,1,North 1,2,East 2,2,South",
        places: "G,0",
        constants: "",
    };
    let outside = Cabinet::read(screen.rt.alloc(), &loose)?;
    screen.show_cabinet("an end that is no node", &outside, Detail::Sizes)?;
    show_short(
        screen,
        "a label for the arrow",
        &written("0,1,North", "Site"),
    )?;
    show_short(screen, "no label for the arrow", &written("", "Site"))?;
    show_short(
        screen,
        "no label for the constant",
        &written("0,1,North", ""),
    )
}
