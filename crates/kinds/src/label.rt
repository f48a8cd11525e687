// The interface of label kinds.
ghost use Rattle.std.specs.Prelude.{◌≡◌, Bool, true, ◌↔◌, Decides};

// A label kind. Each label has a meaning, and `same` tells labels apart by it. Labels lie in
// tables as plain rows, so all this holds of every row, also of one that no making gives.
pub trait Label: Copy {
    ghost Meaning: { Type 0 };

    ghost meaning: { Self → Meaning };

    // What `same` answers.
    ghost alike: { Self → Self → Bool };

    // Whether the two labels have one meaning.
    fn same(&self, other: &Self) -> bool
        ensures value { result ≡ alike self.now other.now }
        ensures exact { Decides result (meaning self.now ≡ meaning other.now) };

    ghost exact: { (x y : Self) → (alike x y ≡ true) ↔ (meaning x ≡ meaning y) };
}
