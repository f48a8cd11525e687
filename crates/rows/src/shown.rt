// The steps that rows make, from a shown node to the head of an arrow that leads on from it.
ghost use Rattle.std.specs.Prelude.{◌≡◌, ◌<◌};
ghost use Rattle.walks.specs.Reach.{Inside};
ghost use Rattle.rows.specs.Heads.{leads_by};
ghost use Rattle.rows.specs.Links.{Fit, Linked};
ghost use Rattle.rows.specs.Rows.{steps as steps_shown};

use course::course::Arrow;
use walks::step_table::StepTable;
use walks::steps::Steps;
use walks::visits::Visits;
use walks::walk::walk;

// Arrows, and the blank ones of them as steps.
#[derive(Clone, Copy)]
pub(crate) struct Showing<'a> {
    pub(crate) arrows: &'a [Arrow],
    pub(crate) blanks: &'a StepTable,
    ghost fit: { Fit arrows.now },
    ghost inside: { Inside 1024 (steps_shown arrows.now 1024) },
    ghost linked: { Linked arrows.now blanks.now },
}

// Whether an arrow leads on from a node: it is not blank, and its tail is among those that are
// near the node.
pub(crate) fn leads(arrow: Arrow, near: &[bool; 1024]) -> bool
    ensures { result ≡ leads_by near.now arrow }
{
    // The tail first: of most arrows it is not near.
    near.get(arrow.tail) == Some(&true) && !arrow.origin.is_blank()
}

impl Steps for Showing<'_> {
    ghost steps = { λ showing. steps_shown showing.arrows.now 1024 };

    // Visits the heads of the arrows that lead on from the node.
    fn visit_heads(&self, node: usize, visits: &mut Visits) {
        let near = walk(self.blanks, node);
        for arrow in self.arrows {
            if leads(*arrow, &near) {
                visits.visit(arrow.head);
            }
        }
    }

    ghost inside = { λ showing. showing.inside };
}
