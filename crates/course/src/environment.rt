// What an evaluation goes by, and what it leaves open.
ghost use Rattle.std.specs.Prelude.{◌≡◌, ◌<◌, ◌≤◌};

use crate::course::Origin;
use expression::term::Term;

// What the variables of a level stand for: the label variable has the origin, the graph variable
// is the node.
#[derive(Clone, Copy, Debug, PartialEq, Eq)]
pub struct Binding {
    pub origin: Origin,
    pub node: usize,
}

// What the variables stand for, level by level. Levels above `level` are not in use.
// An evaluator keeps the level low, and not this type: the rules deepen any environment.
#[derive(Clone, Copy, Debug, PartialEq, Eq)]
pub struct Environment {
    pub level: usize,
    pub bindings: [Binding; 5],
}

impl Environment {
    ghost use Rattle.course.specs.Forward.{origin_of, node_of, deeper as deeper_of, outermost as outermost_of};
    ghost use Rattle.course.specs.View.{Known};

    // The environment of a whole expression: its one variable is the source's root.
    pub(crate) fn outermost() -> Environment
        ensures { result ≡ outermost_of }
    {
        Environment {
            level: 0,
            bindings: [Binding {
                origin: Origin::Blank,
                node: 0,
            }; 5],
        }
    }

    // Where the label of a term comes from.
    pub(crate) fn origin(&self, term: Term) -> Origin
        requires known { Known self.now.level term }
        requires low { self.now.level ≤ 4 }
        ensures { result ≡ origin_of self.now term }
    {
        match term {
            Term::Constant(constant) => Origin::Constant(constant),
            Term::Variable(level) => self.bindings[level].origin,
        }
    }

    // The node of the graph variable of a level.
    pub(crate) fn node(&self, level: usize) -> usize
        requires known { level ≤ self.now.level }
        requires low { self.now.level ≤ 4 }
        ensures { result ≡ node_of self.now level }
    {
        self.bindings[level].node
    }

    // The environment one level deeper.
    pub(crate) fn deeper(&self, origin: Origin, node: usize) -> Environment
        requires { self.now.level < 4 }
        ensures { result ≡ deeper_of self.now origin node }
    {
        let level = self.level + 1;
        let mut bindings = self.bindings;
        bindings[level] = Binding { origin, node };
        Environment { level, bindings }
    }
}

// A node that is left open under a marker.
#[derive(Clone, Copy, Debug, PartialEq, Eq)]
pub struct Out {
    pub node: usize,
    pub marker: usize,
}
