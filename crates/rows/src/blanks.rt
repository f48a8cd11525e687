// The blank arrows as steps.
ghost use Rattle.rows.specs.Links.{Fit, Linked};

use course::course::Arrow;
use walks::step_table::StepTable;

// Puts the blank arrows in the place of the steps of a table.
pub(crate) fn link(arrows: &[Arrow], table: &mut StepTable)
    requires { Fit arrows.now }
    ensures { Linked arrows.now table.new }
{
    table.clear();
    for arrow in arrows {
        if arrow.origin.is_blank() {
            table.add(arrow.tail, arrow.head);
        }
    }
}
