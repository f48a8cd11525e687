// The worked cases, those of the lower crates among them.
ghost use Rattle.std.specs.Prelude.{◌≡◌};
ghost use Rattle.view.specs.Cases.{WorkedCases};

// How many worked cases there are besides those of the expressions and of the courses.
const CASES: usize = 8;

// Shows each worked case of the list of the rules, and answers how many there are besides those of
// the expressions and of the courses.
pub fn worked_cases() -> usize
    ensures number { result ≡ 8 }
    ensures cases { WorkedCases }
{
    CASES
}
