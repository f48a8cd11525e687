// The worked cases.
ghost use Rattle.std.specs.Prelude.{◌≡◌};
ghost use Rattle.expression.specs.Cases.{Worked};

// How many worked cases there are.
const CASES: usize = 9;

// Shows each worked case of the list of the rules, and answers how many there are.
pub fn worked_cases() -> usize
    ensures number { result ≡ 9 }
    ensures cases { Worked }
{
    CASES
}
