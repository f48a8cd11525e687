// Cabinets that fill a list, or the rows, exactly and by one too many.
use crate::expressions::*;
use crate::loops::Loops;
use crate::screen::{Detail, Screen};

// Shows all of them.
pub fn show_all(screen: &mut Screen) -> anyhow::Result<()> {
    let cases = [
        Loops::at_root("level 4 for 3 arrows", 1, 3, LEVEL_4),
        Loops::at_root("1024 nodes", 3, 255, FOUR_NODES),
        Loops::at_root("1025 nodes", 4, 255, FOUR_NODES),
        Loops::at_root("2048 arrows", 1, 256, SEVEN_ARROWS),
        Loops::at_root("2049 arrows", 1, 256, SEVEN_ARROWS_AND_ONE),
        Loops::at_root("512 frames", 1, 255, TWO_FRAMES),
        Loops::at_root("513 frames", 1, 256, TWO_FRAMES),
        Loops::at_root("1024 comparisons", 1, 256, FOUR_COMPARISONS),
        Loops::at_root("1025 comparisons", 1, 256, FOUR_COMPARISONS_AND_ONE),
        Loops::at_root("1024 rows", 1, 204, FOUR_ABOVE),
        Loops::at_root("1025 rows", 1, 170, FIVE_ABOVE),
    ];
    for case in &cases {
        let cabinet = case.cabinet(screen.rt.alloc())?;
        screen.show_cabinet(case.name, &cabinet, Detail::Sizes)?;
    }
    Ok(())
}
