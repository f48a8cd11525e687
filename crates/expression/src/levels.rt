// The levels of a table's places, and what may stand at a level.
ghost use Rattle.std.specs.Prelude.{◌≡◌, ℕ, ◌<◌, true, length, slice_index};
ghost use Rattle.expression.specs.Forms.{parts_of};
ghost use Rattle.expression.specs.Parts.{Below, times, raised};
ghost use Rattle.expression.specs.Rules.{term_fits};
ghost use Rattle.expression.specs.declared.refusal.Refusal.TheVariants.{OutOfRange};
ghost use Rattle.expression.specs.Admission.{part_once, fields_fit, form_in_range, HasLevels, range_kept, lowest, told};

use crate::expression::{MARKERS, PLACES};
use crate::form::Form;
use crate::refusal::Refusal;
use crate::table::Table;
use crate::term::Term;

// The highest level that a place may have.
const LEVELS: usize = 4;

// Gives the parts of a form at a level their levels.
fn give_levels(levels: &mut [usize], form: Form, level: usize)
    requires inside { Below (length levels.old) (parts_of form) }
    requires small { level < 100 }
    ensures parts { (p : ℕ) → 0 < times p (parts_of form) → slice_index levels.new p ≡ raised form p level }
    ensures others { (p : ℕ) → times p (parts_of form) ≡ 0 → slice_index levels.new p ≡ slice_index levels.old p }
{
    for part in form.parts() {
        levels[part] = level;
    }
    if let Form::Recursion(body, _) = form {
        levels[body] = level + 1;
    }
}

// Whether a term is a constant that there is, or a label variable of the level.
fn term_in_range(term: Term, level: usize, constants: usize) -> bool
    ensures { result ≡ term_fits constants level term }
{
    match term {
        Term::Constant(constant) => constant < constants,
        Term::Variable(variable) => 1 <= variable && variable <= level,
    }
}

// Whether the terms, the variable or the marker of a form are in range at a level.
fn fields_in_range(form: Form, level: usize, constants: usize) -> bool
    ensures { result ≡ fields_fit constants level form }
{
    match form {
        Form::Edge(term, _) => term_in_range(term, level, constants),
        Form::If(left, right, _, _) => {
            term_in_range(left, level, constants) && term_in_range(right, level, constants)
        }
        Form::Mark(marker, _) | Form::Out(marker) => marker < MARKERS,
        Form::Graph(variable) => variable <= level,
        Form::Zero
        | Form::Node
        | Form::Union(_, _)
        | Form::Disjoint(_, _)
        | Form::Append(_, _)
        | Form::Recursion(_, _) => true,
    }
}

// Whether a form may stand at a level: the level is not too high, and its fields are in range.
fn in_range(form: Form, level: usize, constants: usize) -> bool
    ensures { result ≡ form_in_range constants level form }
{
    level <= LEVELS && fields_in_range(form, level, constants)
}

impl Table {
    // The level of each place, from the last place down: where a place is reached, its one user has
    // given it its level.
    pub(crate) fn levels(&self) -> [usize; PLACES]
        requires some { 0 < length self.now.forms.items }
        requires once { (p : ℕ) → p < length self.now.forms.items → part_once self.now.forms.items p ≡ true }
        ensures { HasLevels self.now.forms.items result }
    {
        let mut levels = [0; PLACES];
        // Kept by number: a place's level is read, and lower places' are written, in one array.
        for place in (0..self.forms.len()).rev() {
            let level = levels[place];
            give_levels(&mut levels, self.forms[place], level);
        }
        levels
    }

    // Refuses the lowest place whose level, variable, constant or marker is out of range.
    pub(crate) fn check_ranges(
        &self,
        levels: &[usize; PLACES],
        constants: usize,
    ) -> Result<(), Refusal>
        requires { HasLevels self.now.forms.items levels.now }
        ensures { result ≡ told OutOfRange (lowest (length self.now.forms.items) (range_kept self.now.forms.items constants)) }
    {
        (0..self.forms.len())
            .find(|&place| !in_range(self.forms[place], levels[place], constants))
            .map_or(Ok(()), |place| Err(Refusal::OutOfRange(place)))
    }
}
