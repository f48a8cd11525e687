// Whether rows can be taken from arrows.
ghost use Rattle.std.specs.Prelude.{◌≡◌};
ghost use Rattle.std.specs.List.{list_all};
ghost use Rattle.course.specs.Ends.{joins};
ghost use Rattle.course.specs.Reach.{ends};
ghost use Rattle.rows.specs.Listing.{fits};

use course::course::{ARROWS, Arrow, NODES};

// Whether both ends of every arrow are among the nodes.
fn ends_inside(arrows: &[Arrow], nodes: usize) -> bool
    ensures { result ≡ list_all (λ arrow. joins nodes (ends arrow)) arrows.now }
{
    arrows
        .iter()
        .all(|arrow| arrow.tail < nodes && arrow.head < nodes)
}

// Whether there are no more nodes and arrows than a course has, and the root and both ends of every
// arrow are among the nodes.
#[tactic(auto, using(crate::proofs::Fits::inside_list_all))]
pub(crate) fn fit(arrows: &[Arrow], nodes: usize, root: usize) -> bool
    ensures { result ≡ fits arrows.now nodes root }
{
    nodes <= NODES && arrows.len() <= ARROWS && root < nodes && ends_inside(arrows, nodes)
}
