// Admission: the one way to an expression.
ghost use Rattle.std.specs.Prelude.{◌≡◌, Ok as Admitted, Err as Refused, MatchResult};
ghost use Rattle.expression.specs.Admission.{sized, admission};
ghost use Rattle.expression.specs.Admitted.{Holds};

use crate::expression::{CONSTANTS, Expression, PLACES};
use crate::raw::RawPlace;
use crate::refusal::Refusal;
use crate::table::Table;

// Whether there are 1 to 64 places and at most 32 constants.
fn sizes_fit(places: usize, constants: usize) -> bool
    ensures { result ≡ sized places constants }
{
    (1..=PLACES).contains(&places) && constants <= CONSTANTS
}

// The expression of the raw places, or the first check that fails.
fn examine(raw: &[RawPlace], constants: usize) -> Result<Expression, Refusal>
    ensures { MatchResult result (λ x. (admission raw.now constants ≡ Admitted tt) × Holds raw.now constants x) (λ refusal. admission raw.now constants ≡ Refused refusal) }
{
    if !sizes_fit(raw.len(), constants) {
        return Err(Refusal::Size);
    }
    let table = Table::read(raw)?;
    table.check_uses()?;
    let levels = table.levels();
    table.check_ranges(&levels, constants)?;
    let sets = table.sets();
    table.check_sets(&sets)?;
    Ok(Expression {
        table,
        levels,
        sets,
        constants,
    })
}

// Admits the expression of the raw places, and writes it whole into the place that the caller
// lends; a refusal leaves what was there.
pub fn admit(raw: &[RawPlace], constants: usize, into: &mut Expression) -> Result<(), Refusal>
    ensures answer { result ≡ admission raw.now constants }
    ensures written { MatchResult result (λ _. Holds raw.now constants into.new) (λ _. into.new ≡ into.old) }
{
    // Kept as a write into a lent place: the call promises that a refusal leaves what was there.
    let expression = examine(raw, constants)?;
    *into = expression;
    Ok(())
}
