// What a history holds.
ghost use Rattle.std.specs.Prelude.{◌≡◌, ◌-◌, ◌≤◌, take, sum};
ghost use Rattle.arrayvec.specs.ArrayVec.{array_vec_len};

use arrayvec::ArrayVec;

// Commits in their order, first those that stand, then those that are undone. The labels of their
// changes lie in a table of the caller. Both lists lie in the history itself, so that no commit can
// fail for want of memory.
#[derive(Drop)]
pub struct History {
    pub(crate) standing: usize,
    // how many changes each commit has
    pub(crate) sizes: ArrayVec<usize, 64>,
    // how many changes the standing commits have
    pub(crate) changes: usize,
    // the arrow of each change
    pub(crate) arrows: ArrayVec<usize, 256>,
    ghost few: { array_vec_len sizes ≤ 64 },
    ghost few_changes: { array_vec_len arrows ≤ 256 },
    ghost some_stand: { standing ≤ array_vec_len sizes },
    ghost counted: { changes ≡ sum (take standing sizes.items) },
    ghost all_counted: { array_vec_len arrows ≡ sum sizes.items },
}

impl History {
    // How many commits are undone.
    pub(crate) fn undone(&self) -> usize
        ensures { result ≡ array_vec_len self.now.sizes - self.now.standing }
    {
        self.sizes.len() - self.standing
    }
}
