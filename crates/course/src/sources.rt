// Making and reading a source.
ghost use Rattle.std.specs.Prelude.{◌≡◌, length, not, position};
ghost use Rattle.std.specs.List.{slice_get};
ghost use Rattle.course.specs.Ends.{joins as joins_of};
ghost use Rattle.course.specs.Sources.{sized as sized_of, graph_of, Taken};

use crate::source::{SOURCE_ARROWS, SOURCE_NODES, Source, SourceFault};
use arrayvec::ArrayVec;

// Whether there may be so many nodes and so many arrows.
fn sized(nodes: usize, arrows: usize) -> bool
    ensures { result ≡ sized_of nodes arrows }
{
    (1..=SOURCE_NODES).contains(&nodes) && arrows <= SOURCE_ARROWS
}

// Whether both ends of an arrow are among so many nodes.
fn joins(nodes: usize, arrow: (usize, usize)) -> bool
    ensures { result ≡ joins_of nodes arrow }
{
    arrow.0 < nodes && arrow.1 < nodes
}

// The first arrow that has an end which is no node.
fn first_outside(nodes: usize, arrows: &[(usize, usize)]) -> Option<usize>
    ensures { result ≡ position (λ arrow. not (joins_of nodes arrow)) arrows.now }
{
    arrows.iter().position(|arrow| !joins(nodes, *arrow))
}

impl Source {
    // The source of so many nodes and these arrows, each told as the pair of its tail and its head.
    pub fn new(nodes: usize, arrows: &[(usize, usize)]) -> Result<Source, SourceFault>
        ensures { Taken nodes arrows.now result }
    {
        if !sized(nodes, arrows.len()) {
            return Err(SourceFault::Count);
        }
        if let Some(k) = first_outside(nodes, arrows) {
            return Err(SourceFault::End(k));
        }
        let arrows = ArrayVec::try_from(arrows).map_err(|_| SourceFault::Count)?;
        Ok(Source { nodes, arrows })
    }

    // How many nodes there are.
    pub fn nodes(&self) -> usize
        ensures { result ≡ (graph_of self.now).nodes }
    {
        self.nodes
    }

    // How many arrows there are.
    pub fn arrows(&self) -> usize
        ensures { result ≡ length (graph_of self.now).arrows }
    {
        self.arrows.len()
    }

    // The tail and the head of an arrow.
    pub fn ends(&self, arrow: usize) -> Option<(usize, usize)>
        ensures { result ≡ slice_get (graph_of self.now).arrows arrow }
    {
        self.arrows.get(arrow).copied()
    }
}
