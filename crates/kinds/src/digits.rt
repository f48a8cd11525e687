// Numbers written as digits, and read back.
ghost use Rattle.std.specs.Prelude.{◌≡◌, ℕ, ◌+◌, ◌*◌, ◌^◌, ◌<◌, ◌≤◌, length, MatchOption, ◌≢◌};
ghost use Rattle.bounded.specs.Lists.{held, room, Appended};
ghost use Rattle.kinds.specs.Digits.{radix_of, glyph_of, spelled, Spells};

use bounded::list::Bounded;

// A base that numbers are written in.
#[derive(Clone, Copy, Debug, PartialEq, Eq, Hash)]
pub(crate) enum Base {
    Ten = 10,
    Sixteen = 16,
}

// The byte of a digit: 0 to 9, then A to F.
fn glyph(digit: u32) -> u8
    requires { digit < 16 }
    ensures { result ≡ glyph_of digit }
{
    if digit < 10 {
        b'0' + digit as u8
    } else {
        b'A' - 10 + digit as u8
    }
}

// The digit that a byte is the glyph of, if it is one.
fn value(byte: u8) -> Option<u32>
    ensures { MatchOption result
        ((d : ℕ) → d < 16 → glyph_of d ≢ byte)
        (λ d. (d < 16) × (glyph_of d ≡ byte)) }
{
    match byte {
        b'0'..=b'9' => Some(u32::from(byte - b'0')),
        b'A'..=b'F' => Some(u32::from(byte - b'A') + 10),
        _ => None,
    }
}

impl Base {
    // How many digits the base has.
    fn radix(self) -> u32
        ensures { result ≡ radix_of self }
    {
        self as u32
    }

    // The digit of the base that a byte is the glyph of, if it is one.
    fn digit(self, byte: u8) -> Option<u32>
        ensures { MatchOption result
            ((d : ℕ) → d < radix_of self → glyph_of d ≢ byte)
            (λ d. (d < radix_of self) × (glyph_of d ≡ byte)) }
    {
        value(byte).filter(|&digit| digit < self.radix())
    }

    // The number `n` with a digit after it; none where the byte is no digit of the base, or where
    // 32 bits do not hold the number.
    fn followed_by(self, n: u32, byte: u8) -> Option<u32>
        ensures { MatchOption result
            ((d : ℕ) → d < radix_of self → glyph_of d ≡ byte → 2 ^ 32 ≤ n * radix_of self + d)
            (λ m. (d : ℕ) × (d < radix_of self) × (glyph_of d ≡ byte) × (m ≡ n * radix_of self + d)) }
    {
        n.checked_mul(self.radix())?.checked_add(self.digit(byte)?)
    }

    // Puts the digits of `n` at the end of the list, with zeros in front of fewer than `width`.
    pub(crate) fn append(self, list: &mut Bounded<u8>, width: usize, n: u32)
        requires some { 1 ≤ width }
        requires room { length (held list.old) + length (spelled (radix_of self) width n) ≤ room list.old }
        ensures { Appended list.old list.new (spelled (radix_of self) width n) }
    {
        let radix = self.radix();
        if 1 < width || radix <= n {
            self.append(list, (width - 1).max(1), n / radix);
        }
        let _ = list.append(glyph(n % radix));
    }

    // The number that these digits write; none where a byte is no digit of the base, or where 32
    // bits do not hold the number.
    pub(crate) fn read(self, digits: &[u8]) -> Option<u32>
        ensures { MatchOption result
            ((n : ℕ) → n < 2 ^ 32 → ¬ Spells (radix_of self) digits.now n)
            (Spells (radix_of self) digits.now) }
    {
        let mut n = 0u32;
        for &byte in digits {
            n = self.followed_by(n, byte)?;
        }
        Some(n)
    }
}
