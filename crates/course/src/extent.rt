// How far a workspace is filled.
ghost use Rattle.std.specs.Prelude.{◌≡◌, vec_len};

use crate::workspace::Workspace;

// How many nodes, arrows and outs there are at a time.
#[derive(Clone, Copy, Debug, PartialEq, Eq)]
pub struct Extent {
    pub nodes: usize,
    pub arrows: usize,
    pub outs: usize,
}

impl Workspace {
    // How far it is filled.
    pub(crate) fn extent(&self) -> Extent
        ensures nodes { result.nodes ≡ vec_len self.now.nodes }
        ensures arrows { result.arrows ≡ vec_len self.now.arrows }
        ensures outs { result.outs ≡ vec_len self.now.outs }
    {
        Extent {
            nodes: self.nodes.len(),
            arrows: self.arrows.len(),
            outs: self.outs.len(),
        }
    }
}
