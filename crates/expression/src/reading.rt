// What an admitted expression answers of its places.
ghost use Rattle.std.specs.Prelude.{◌≡◌, ◌<◌, ◌≤◌, true, if◌then◌else◌, Some as Present, None as Absent, nat_lt};
ghost use Rattle.expression.specs.Admitted.{tree_of, count_of, whole_of, form_of};
ghost use Rattle.expression.specs.Forms.{Lower, grown, ins as tree_ins, outs as tree_outs};
ghost use Rattle.expression.specs.Sets.{sets_at};
ghost use Rattle.expression.specs.Law.{Lawful, level_of};
ghost use Rattle.expression.specs.Rules.{keeps};

use crate::expression::{Expression, MARKERS};
use crate::form::Form;
use crate::sets::Sets;

impl Expression {
    // How many places the expression has. Whatever expression this is asked of keeps the law.
    pub fn count(&self) -> usize
        ensures value { result ≡ count_of self.now }
        ensures bound { (0 < result) × (result ≤ 64) }
        ensures law { Lawful self.now }
    {
        self.table.forms.len()
    }

    // How many constants the expression has.
    pub fn constants(&self) -> usize
        ensures value { result ≡ self.now.constants }
        ensures bound { result ≤ 32 }
    {
        self.constants
    }

    // The place of the whole, whose tree keeps every rule.
    pub fn whole(&self) -> usize
        ensures value { result ≡ whole_of self.now }
        ensures bound { result < 64 }
        ensures rules { keeps self.now.constants (tree_of self.now result) ≡ true }
    {
        self.count() - 1
    }

    // The form of a place, whose parts stand lower; past the end a Zero.
    pub fn form(&self, place: usize) -> Form
        ensures value { result ≡ form_of self.now place }
        ensures tree { tree_of self.now place ≡ grown result place (tree_of self.now) }
        ensures low { Lower place result }
    {
        self.table.forms.get(place).copied().unwrap_or(Form::Zero)
    }

    // The sets of a place; past the end those of a Zero.
    fn sets(&self, place: usize) -> Sets
        ensures { result ≡ sets_at self.now.table.forms.items place }
    {
        self.sets[..self.count()]
            .get(place)
            .copied()
            .unwrap_or(Sets::EMPTY)
    }

    // The in-set of a place.
    pub fn in_set(&self, place: usize) -> [bool; MARKERS]
        ensures { result ≡ tree_ins (tree_of self.now place) }
    {
        self.sets(place).in_set
    }

    // The out-set of a place.
    pub fn out_set(&self, place: usize) -> [bool; MARKERS]
        ensures { result ≡ tree_outs (tree_of self.now place) }
    {
        self.sets(place).out_set
    }

    // The level of a place; none past the end.
    pub fn level(&self, place: usize) -> Option<usize>
        ensures { result ≡ (if nat_lt place (count_of self.now) then Present (level_of self.now place) else Absent) }
    {
        self.levels[..self.count()].get(place).copied()
    }
}
