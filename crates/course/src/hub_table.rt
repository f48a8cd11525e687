// The tables by which the hubs of a recursion are found.
ghost use Rattle.std.specs.Prelude.{◌≡◌, ℕ, ◌<◌, ◌≤◌, length, take, slice_index};
ghost use Rattle.walks.specs.Reach.{trues};

use crate::rule::Rule;

// The hubs of the marked nodes for the markers of a set, numbered from `first` on: for each node
// its rank among the marked ones, for each marker its rank in the set. They are made by the rule of
// the recursion.
// Kept as arrays side by side: a walk fills the marks, and links go over the set, each as one array
// of flags.
#[derive(Drop)]
pub struct Hubs {
    pub(crate) rule: Rule,
    pub(crate) set: [bool; 8],
    pub(crate) first: usize,
    pub(crate) marks: [bool; 1024],
    pub(crate) width: usize,
    pub(crate) ranks: [usize; 1024],
    pub(crate) markers: [usize; 8],
    ghost eight: { length set ≡ 8 },
    ghost marked: { length marks ≡ 1024 },
    ghost low: { first ≤ 1024 },
    ghost wide: { width ≡ trues set },
    ghost ranked: { (v : ℕ) → v < 1024 → slice_index ranks v ≡ trues (take v marks) },
    ghost placed: { (m : ℕ) → m < 8 → slice_index markers m ≡ trues (take m set) },
}

impl Hubs {
    ghost use Rattle.course.specs.Hubs.{hub as hub_of};
    ghost use Rattle.course.specs.Recursions.{members, hubs_at};

    // The number of a hub.
    pub(crate) fn hub(&self, node: usize, marker: usize) -> usize
        requires { (node < self.now.first) × (marker < 8) }
        ensures { result ≡ hub_of (members self.now) self.now.set self.now.first node marker }
    {
        self.first + self.ranks[node] * self.width + self.markers[marker]
    }

    // The hubs of a node, as an in-map.
    pub(crate) fn in_map(&self, node: usize) -> [usize; 8]
        requires { node < self.now.first }
        ensures { result ≡ hubs_at self.now node }
    {
        let mut into = [0; 8];
        for (marker, &on) in self.set.iter().enumerate() {
            if on {
                into[marker] = self.hub(node, marker);
            }
        }
        into
    }
}
