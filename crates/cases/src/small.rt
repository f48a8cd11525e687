// Small cabinets, printed whole.
use crate::cabinet::{Cabinet, Written};
use crate::expressions::*;
use crate::screen::{Detail, Screen, admit_places};
use anyhow::Context;
use course::source::Source;
use kinds::setting::{Setting, SettingLabel};

// The cabinets of the rules, a cycle, markers beyond 0, a body with an empty in-set, and recursion
// to level 4.
fn cases() -> [(&'static str, Written); 8] {
    [
        (
            "P",
            written(3, "0,1,North 1,2,Loop7 1,2,Loop8", WITHOUT, "Loop8"),
        ),
        ("Q", written(2, "0,1,North", BESIDE, "Site")),
        ("alone", written(1, "", "G,0", "")),
        (
            "cycle",
            written(3, "0,1,North 1,2,East 2,0,South", COPY, ""),
        ),
        (
            "markers in D M U A",
            written(2, "0,1,North", JOINED, "Site"),
        ),
        (
            "markers in R",
            written(4, "0,1,North 1,2,East 2,3,South", ALTERNATE, ""),
        ),
        (
            "empty in-set",
            written(2, "0,1,North 1,0,East", NO_MARKERS, ""),
        ),
        ("level 4", written(1, "0,0,North", LEVEL_4, "")),
    ]
}

fn written(
    nodes: usize,
    arrows: &'static str,
    places: &'static str,
    constants: &'static str,
) -> Written {
    Written {
        nodes,
        arrows,
        places,
        constants,
    }
}

fn label(setting: Setting) -> SettingLabel {
    SettingLabel { setting }
}

// Setting labels, where the two zeros differ.
fn show_settings(screen: &mut Screen) -> anyhow::Result<()> {
    println!(screen.rt; "case settings")?;
    let cabinet = Cabinet::read(screen.rt.alloc(), &written(3, "", WITHOUT, "Zero"))?;
    let expression = admit_places(&cabinet)?;
    let labels = [
        label(Setting::Count(7)),
        label(Setting::Seconds(-0.0)),
        label(Setting::Seconds(0.0)),
    ];
    let constants = [label(Setting::Seconds(0.0))];
    let source = Source::new(3, &[(0, 1), (1, 2), (1, 2)]).context("a source is refused")?;
    screen.show_labelled(&source, &expression, &labels, &constants, Detail::All)
}

// Shows all of them.
pub fn show_all(screen: &mut Screen) -> anyhow::Result<()> {
    for (name, written) in &cases() {
        let cabinet = Cabinet::read(screen.rt.alloc(), written)?;
        screen.show_cabinet(name, &cabinet, Detail::All)?;
    }
    show_settings(screen)
}
