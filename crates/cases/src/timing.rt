// Times runs that are hard for their size. The times go to standard error.
use crate::cabinet::{Cabinet, Written};
use crate::expressions::*;
use crate::loops::Loops;
use crate::screen::{Screen, admit_places};
use anyhow::Context;
use course::course::Sizes;
use course::source::Source;
use std::time::Instant;

// How often each run is repeated.
const TURNS: u32 = 20;

// Shows a cabinet again and again.
fn show_often(screen: &mut Screen, cabinet: &Cabinet, source: &Source) -> anyhow::Result<()> {
    let expression = admit_places(cabinet)?;
    let labels = cabinet.labels.as_slice();
    let constants = cabinet.constants.as_slice();
    for _ in 0..TURNS {
        screen
            .view
            .show(source, &expression, labels, constants)
            .context("a timed run is refused")?;
    }
    Ok(())
}

// Tells the mean time of a view of a cabinet, with the sizes of its course.
fn time_cabinet(screen: &mut Screen, name: &str, cabinet: &Cabinet) -> anyhow::Result<()> {
    let source = Source::new(cabinet.nodes, cabinet.arrows.as_slice()).context(
        "a source is refused",
    )?;
    let start = Instant::now(screen.rt)?;
    show_often(screen, cabinet, &source)?;
    let mean = start.elapsed(screen.rt)?.as_micros() / u128::from(TURNS);
    let Sizes {
        nodes,
        arrows,
        frames,
        ..
    } = screen.view.sizes();
    eprintln!(screen.rt;
        "{name}: {mean} microseconds, nodes={nodes} arrows={arrows} frames={frames}"
    )?;
    Ok(())
}

// Times the runs that fill a list, and many short recursions.
fn time_lists(screen: &mut Screen) -> anyhow::Result<()> {
    let short = Loops {
        ends: (0, 1),
        ..Loops::at_root("7,140 short recursions", 2, 255, SHORT_RECURSIONS)
    };
    let cases = [
        short,
        Loops::at_root("1,024 nodes", 3, 255, FOUR_NODES),
        Loops::at_root("2,048 arrows", 1, 256, SEVEN_ARROWS),
        Loops::at_root("512 frames", 1, 255, TWO_FRAMES),
        Loops::at_root("1,024 comparisons", 1, 256, FOUR_COMPARISONS),
        Loops::at_root("1,024 rows", 1, 204, FOUR_ABOVE),
    ];
    for case in &cases {
        let cabinet = case.cabinet(screen.rt.alloc())?;
        time_cabinet(screen, case.name, &cabinet)?;
    }
    Ok(())
}

// A cabinet without arrows.
fn bare(screen: &Screen, nodes: usize, places: &'static str) -> anyhow::Result<Cabinet> {
    let written = Written {
        nodes,
        arrows: "",
        places,
        constants: "Site",
    };
    Cabinet::read(screen.rt.alloc(), &written)
}

// Times all of them.
pub fn time_all(screen: &mut Screen) -> anyhow::Result<()> {
    let mut ring = bare(screen, 109, BLANK_RING)?;
    ring.add_ring()?;
    time_cabinet(screen, "1,090 recursions over 872 blank arrows", &ring)?;
    let mut apart = bare(screen, 1, "G,0")?;
    apart.add_apart(screen.rt.alloc(), 256)?;
    time_cabinet(screen, "256 labels that differ", &apart)?;
    time_lists(screen)
}
