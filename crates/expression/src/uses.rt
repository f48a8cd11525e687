// How often each place of a table is a part.
ghost use Rattle.std.specs.Prelude.{◌≡◌, ℕ, ◌+◌, ◌<◌, length, slice_index};
ghost use Rattle.expression.specs.Listed.{listed};
ghost use Rattle.expression.specs.Parts.{times, uses, Below};
ghost use Rattle.expression.specs.declared.refusal.Refusal.TheVariants.{NotPartOnce};
ghost use Rattle.expression.specs.Admission.{part_once, lowest, told};

use crate::expression::PLACES;
use crate::parts::Parts;
use crate::refusal::Refusal;
use crate::table::Table;

// Counts the uses that one form's parts are.
fn count_parts(counts: &mut [usize], parts: Parts)
    requires inside { Below (length counts.old) (listed parts) }
    requires small { (p : ℕ) → slice_index counts.old p < 900 }
    ensures { (p : ℕ) → p < length counts.old → slice_index counts.new p ≡ slice_index counts.old p + times p (listed parts) }
{
    for part in parts {
        counts[part] += 1;
    }
}

impl Table {
    // How often each place is a part.
    fn uses(&self) -> [usize; PLACES]
        ensures { (p : ℕ) → p < 64 → slice_index result p ≡ uses self.now.forms.items (length self.now.forms.items) p }
    {
        let mut counts = [0; PLACES];
        for form in self.forms.iter() {
            count_parts(&mut counts, form.parts());
        }
        counts
    }

    // Refuses the lowest place that is not a part exactly once, or that is the last and a part.
    pub(crate) fn check_uses(&self) -> Result<(), Refusal>
        ensures { result ≡ told NotPartOnce (lowest (length self.now.forms.items) (part_once self.now.forms.items)) }
    {
        let uses = self.uses();
        (0..self.forms.len())
            .find(|&place| uses[place] != usize::from(place + 1 != self.forms.len()))
            .map_or(Ok(()), |place| Err(Refusal::NotPartOnce(place)))
    }
}
