// Fields of a text: a letter, a colon and the digits of a number.
ghost use Rattle.std.specs.Prelude.{◌≤◌};

use crate::digits::Base;
use bounded::list::Bounded;

// How a field is written: its letter, and its number in a base, with zeros in front of fewer
// digits than the width.
#[derive(Clone, Copy, Debug, PartialEq, Eq, Hash)]
pub(crate) struct Field {
    letter: u8,
    base: Base,
    width: usize,
    ghost some: { 1 ≤ width },
}

impl Field {
    ghost use Rattle.std.specs.Prelude.{◌≡◌, ℕ, ◌+◌, ◌^◌, ◌<◌, length, MatchOption};
    ghost use Rattle.bounded.specs.Lists.{held, room, Appended};
    ghost use Rattle.kinds.specs.Fields.{field_text, Fills};

    // Seconds, as `S:3F800000`.
    pub(crate) const SECONDS: Field = Field {
        letter: b'S',
        base: Base::Sixteen,
        width: 8,
    };

    // Metres, as `L:3F800000`.
    pub(crate) const METRES: Field = Field {
        letter: b'L',
        base: Base::Sixteen,
        width: 8,
    };

    // A count, as `C:1`.
    pub(crate) const COUNT: Field = Field {
        letter: b'C',
        base: Base::Ten,
        width: 1,
    };

    // Puts the field with the number `n` at the end of the list.
    pub(crate) fn append(self, list: &mut Bounded<u8>, n: u32)
        requires { length (held list.old) + length (field_text self n) ≤ room list.old }
        ensures { Appended list.old list.new (field_text self n) }
    {
        let _ = list.append(self.letter);
        let _ = list.append(b':');
        self.base.append(list, self.width, n);
    }

    // The number in a text that is the field, also where it is written with more or fewer digits.
    pub(crate) fn read(self, text: &[u8]) -> Option<u32>
        ensures { MatchOption result
            ((n : ℕ) → n < 2 ^ 32 → ¬ Fills self text.now n)
            (Fills self text.now) }
    {
        self.base.read(text.strip_prefix(&[self.letter, b':'])?)
    }
}
