// The nodes that a walk has marked, and those among them that are still to be visited.
ghost use Rattle.std.specs.Prelude.{◌≡◌, ◌≤◌};
ghost use Rattle.arrayvec.specs.ArrayVec.{array_vec_len};
ghost use Rattle.walks.specs.Reach.{trues};

use arrayvec::ArrayVec;

// How many nodes have a mark.
pub const NODES: usize = 1024;

// A mark for each node, and the marked nodes that are still to be visited. There is room for all of
// them, since each was marked when it was listed. Their numbers are narrow, since a walk begins by
// writing the whole list's memory.
#[derive(Drop)]
pub struct Visits {
    marks: [bool; 1024],
    todo: ArrayVec<u16, 1024>,
    ghost few: { array_vec_len todo ≤ trues marks },
}

impl Visits {
    ghost use Rattle.walks.specs.Visits.{visiting, nothing, visit_one, Takes};

    // No node is marked.
    pub fn new() -> Visits
        ensures { visiting result ≡ nothing }
    {
        Visits {
            marks: [false; 1024],
            todo: ArrayVec::new(),
        }
    }

    // Takes all marks away, and all nodes off the list.
    pub fn clear(&mut self)
        ensures { visiting self.new ≡ nothing }
    {
        self.marks = [false; 1024];
        self.todo.clear();
    }

    // Marks a node and lists it, unless it is marked. A number past the marks is passed over.
    pub fn visit(&mut self, node: usize)
        ensures { visiting self.new ≡ visit_one node (visiting self.old) }
    {
        if node < NODES && !self.marks[node] {
            self.marks[node] = true;
            self.todo.push(node as u16);
        }
    }

    // Takes the node that was listed last off the list.
    pub fn take_next(&mut self) -> Option<usize>
        ensures { Takes (visiting self.old) (visiting self.new) result }
    {
        self.todo.pop().map(usize::from)
    }

    // The marks.
    pub fn marks(&self) -> &[bool; 1024]
        ensures { result.now ≡ self.now.marks }
    {
        &self.marks
    }
}
