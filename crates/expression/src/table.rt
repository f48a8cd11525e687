// Raw places read into a table of forms.
ghost use Rattle.std.specs.Prelude.{◌≡◌, ℕ, ◌≤◌, true, [], ◌∷◌, length, Ok as Passed, Err as Refused, IfOk, MatchResult, slice_index_or};
ghost use Rattle.std.proofs.lemmas.Map.Entries.{option_filter};
ghost use Rattle.expression.specs.declared.form.Form.TheVariants.{Zero as NoPlace, Node as OneNode};
ghost use Rattle.expression.specs.Forms.{lower};
ghost use Rattle.expression.specs.Raw.{read};
ghost use Rattle.expression.specs.Admission.{table_read, formed};
ghost use Rattle.arrayvec.specs.ArrayVec.{array_vec_len};

use crate::expression::PLACES;
use crate::form::Form;
use crate::raw::RawPlace;
use crate::refusal::Refusal;
use arrayvec::ArrayVec;

// The forms of the places; the parts of each stand at lower places. They lie in the table itself,
// so that reading one cannot fail for memory.
#[derive(Drop)]
pub(crate) struct Table {
    pub(crate) forms: ArrayVec<Form, PLACES>,
    ghost few: { array_vec_len forms ≤ 64 },
    ghost lower_parts: { (k : ℕ) → lower k (slice_index_or forms.items k NoPlace) ≡ true },
}

// The form that a raw place names, if its parts stand lower than the place.
fn form_at(raw: &RawPlace, place: usize) -> Option<Form>
    ensures { result ≡ option_filter (lower place) (read raw.now) }
{
    raw.form().filter(|form| form.parts_lower(place))
}

impl Table {
    // A node at the first place.
    #[tactic(auto, using(crate::proofs::Single::lower_in_single))]
    pub(crate) fn one_node() -> Table
        ensures { result.forms.items ≡ OneNode ∷ [] }
    {
        let mut forms = ArrayVec::new();
        forms.push(Form::Node);
        Table { forms }
    }

    // The table of the forms that the raw places name. Refuses the lowest place that names none or
    // has a part that does not stand lower.
    pub(crate) fn read(raw: &[RawPlace]) -> Result<Table, Refusal>
        requires { length raw.now ≤ 64 }
        ensures answer { MatchResult result (λ _. formed raw.now ≡ Passed tt) (λ refusal. formed raw.now ≡ Refused refusal) }
        ensures table { IfOk result (λ table. table.forms.items ≡ table_read raw.now) }
    {
        let mut forms = ArrayVec::new();
        for (place, raw_place) in raw.iter().enumerate() {
            let form = form_at(raw_place, place).ok_or(Refusal::IllFormed(place))?;
            forms.push(form);
        }
        Ok(Table { forms })
    }
}
