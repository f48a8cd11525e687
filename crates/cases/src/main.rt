// Shows small and large cabinets and prints their courses and rows.
#![tactic(auto)]

use screen::Screen;
use std::env;

mod cabinet;
mod entries;
mod expressions;
mod large;
mod loops;
mod refused;
mod screen;
mod small;
mod timing;
mod written;

// Whether the program is called with the one word `time`.
fn is_timed(rt: &HostRuntime) -> anyhow::Result<bool> {
    Ok(
        env::args(rt)?
            .nth(1)
            .is_some_and(|word| word.as_str() == "time"),
    )
}

fn main(rt: HostRuntime) -> anyhow::Result<()> {
    let mut screen = Screen::new(&rt)?;
    if is_timed(&rt)? {
        return timing::time_all(&mut screen);
    }
    small::show_all(&mut screen)?;
    large::show_all(&mut screen)?;
    refused::show_all(&mut screen)
}
