// The conditions on the in-sets and out-sets of a table's places.
ghost use Rattle.std.specs.Prelude.{◌≡◌, ◌<◌, ◌≤◌, length};
ghost use Rattle.expression.specs.Forms.{Lower};
ghost use Rattle.expression.specs.Sets.{row, HasSets};
ghost use Rattle.expression.specs.declared.refusal.Refusal.TheVariants.{SetsUnfit};
ghost use Rattle.expression.specs.Admission.{sets_hold, sets_agree_by, sets_agree, lowest, told};

use crate::expression::PLACES;
use crate::form::Form;
use crate::markers::{apart, just, within};
use crate::refusal::Refusal;
use crate::sets::Sets;
use crate::table::Table;

// Whether the sets of a form's parts are as the form asks.
#[tactic(auto, using(crate::proofs::Flags::equal_sets))]
fn form_sets_hold(form: Form, sets: &[Sets; PLACES]) -> bool
    requires { Lower 64 form }
    ensures { result ≡ sets_hold (row sets.now) form }
{
    match form {
        Form::Zero | Form::Node | Form::Out(_) | Form::Graph(_) | Form::Append(_, _) => true,
        Form::Edge(_, part) | Form::Mark(_, part) => sets[part].in_set == just(0),
        Form::Union(left, right) | Form::If(_, _, left, right) => {
            sets[left].in_set == sets[right].in_set
        }
        Form::Disjoint(left, right) => apart(sets[left].in_set, sets[right].in_set),
        Form::Recursion(body, argument) => {
            sets[argument].is_closed() && within(sets[body].out_set, sets[body].in_set)
        }
    }
}

impl Table {
    // Whether the sets at a place are as its form asks, and at the last place as the whole has to
    // have them.
    fn sets_fit(&self, sets: &[Sets; PLACES], place: usize) -> bool
        requires { place < length self.now.forms.items }
        ensures { result ≡ sets_agree_by (row sets.now) self.now.forms.items place }
    {
        form_sets_hold(self.forms[place], sets)
            && (place + 1 != self.forms.len() || sets[place].is_closed())
    }

    // Refuses the lowest place whose sets do not hold.
    pub(crate) fn check_sets(&self, sets: &[Sets; PLACES]) -> Result<(), Refusal>
        requires { HasSets self.now.forms.items sets.now }
        ensures { result ≡ told SetsUnfit (lowest (length self.now.forms.items) (sets_agree self.now.forms.items)) }
    {
        (0..self.forms.len())
            .find(|&place| !self.sets_fit(sets, place))
            .map_or(Ok(()), |place| Err(Refusal::SetsUnfit(place)))
    }
}
