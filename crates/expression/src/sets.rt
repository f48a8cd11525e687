// The in-set and the out-set of each place of a table.
ghost use Rattle.std.specs.Prelude.{◌≡◌};
ghost use Rattle.expression.specs.Forms.{Lower};
ghost use Rattle.expression.specs.Sets.{row, sets_from, HasSets};
ghost use Rattle.expression.specs.Admission.{closed};

use crate::expression::{MARKERS, PLACES};
use crate::form::Form;
use crate::markers::{both, just};
use crate::table::Table;

// The markers by which an expression is entered, and those under which it leaves nodes open.
#[derive(Clone, Copy, Debug, PartialEq, Eq, Hash)]
pub(crate) struct Sets {
    pub(crate) in_set: [bool; MARKERS],
    pub(crate) out_set: [bool; MARKERS],
}

// No marker.
const NONE: [bool; MARKERS] = [false; MARKERS];

// The sets of a form, from its parts' sets.
fn sets_of(form: Form, sets: &[Sets; PLACES]) -> Sets
    requires { Lower 64 form }
    ensures { result ≡ sets_from (row sets.now) form }
{
    let (in_set, out_set) = match form {
        Form::Zero => (NONE, NONE),
        Form::Node | Form::Graph(_) => (just(0), NONE),
        Form::Edge(_, part) => (just(0), sets[part].out_set),
        Form::Mark(marker, part) => (just(marker), sets[part].out_set),
        Form::Out(marker) => (just(0), just(marker)),
        Form::Union(left, right) | Form::If(_, _, left, right) => {
            let out_set = both(sets[left].out_set, sets[right].out_set);
            (sets[left].in_set, out_set)
        }
        Form::Disjoint(left, right) => (
            both(sets[left].in_set, sets[right].in_set),
            both(sets[left].out_set, sets[right].out_set),
        ),
        Form::Append(left, right) => (sets[left].in_set, sets[right].out_set),
        Form::Recursion(body, _) => (sets[body].in_set, NONE),
    };
    Sets { in_set, out_set }
}

impl Sets {
    // No marker in either set, as of a Zero.
    pub(crate) const EMPTY: Sets = Sets {
        in_set: NONE,
        out_set: NONE,
    };

    // Whether an expression with these sets is entered by marker 0 alone and leaves nothing open.
    #[tactic(auto, using(crate::proofs::Flags::equal_sets))]
    pub(crate) fn is_closed(&self) -> bool
        ensures { result ≡ closed self.now }
    {
        self.in_set == just(0) && self.out_set == NONE
    }
}

impl Table {
    // The sets of each place, from the first place up.
    pub(crate) fn sets(&self) -> [Sets; PLACES]
        ensures { HasSets self.now.forms.items result }
    {
        let mut sets = [Sets::EMPTY; PLACES];
        for (place, form) in self.forms.iter().enumerate() {
            sets[place] = sets_of(*form, &sets);
        }
        sets
    }
}
