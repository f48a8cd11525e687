// The hubs of a recursion, found in constant time.
ghost use Rattle.std.specs.Prelude.{◌≡◌, ℕ, ◌<◌, ◌≤◌, length, take, vec_len, slice_index};
ghost use Rattle.walks.specs.Reach.{trues};
ghost use Rattle.course.specs.Reach.{reached};
ghost use Rattle.course.specs.Recursions.{Numbers};

use crate::hub_table::Hubs;
use crate::rule::Rule;
use crate::workspace::Workspace;
use walks::walk::walk;

// For each flag how many are set before it; how many are set in all.
fn rank(flags: &[bool], ranks: &mut [usize]) -> usize
    requires { (length ranks.old ≡ length flags.now) × (length flags.now ≤ 1024) }
    ensures all { result ≡ trues flags.now }
    ensures each { (v : ℕ) → v < length flags.now → slice_index ranks.new v ≡ trues (take v flags.now) }
{
    let mut count: usize = 0;
    for (v, &flag) in flags.iter().enumerate() {
        ranks[v] = count;
        count += usize::from(flag);
    }
    count
}

// The hubs of the marked nodes below `first`.
fn number_hubs(rule: Rule, marks: [bool; 1024], set: [bool; 8], first: usize) -> Hubs
    requires { first ≤ 1024 }
    ensures { Numbers result rule.place rule.frame set first (take first marks) }
{
    let mut ranks = [0; 1024];
    let mut markers = [0; 8];
    rank(&marks, &mut ranks);
    let width = rank(&set, &mut markers);
    Hubs {
        rule,
        set,
        first,
        marks,
        width,
        ranks,
        markers,
    }
}

impl Workspace {
    // The hubs that a recursion makes next, from the number `first` on, of the nodes that arrows
    // reach from the root.
    pub(crate) fn find_hubs(&self, rule: Rule, root: usize, first: usize, set: [bool; 8]) -> Hubs
        requires { (root < vec_len self.now.nodes) × (first ≡ vec_len self.now.nodes) }
        ensures { Numbers result rule.place rule.frame set (vec_len self.now.nodes) (reached (vec_len self.now.nodes) self.now.arrows.items root) }
    {
        number_hubs(rule, walk(&self.steps, root), set, first)
    }
}
