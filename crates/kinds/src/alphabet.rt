// The house alphabet: A to Z, a to z, 0 to 9, and `-` `.` `_` `/`.
ghost use Rattle.std.specs.Prelude.{◌≡◌};
ghost use Rattle.kinds.specs.Texts.{house};

// For each byte whether it is in the alphabet.
// Kept as a table of flags: it is a decision here that one look tells each byte.
const HOUSE: [bool; 256] = [
    // 0x00 to 0x0F: none
    false, false, false, false, false, false, false, false, false, false, false, false, false,
    false, false, false,
    // 0x10 to 0x1F: none
    false, false, false, false, false, false, false, false, false, false, false, false, false,
    false, false, false,
    // 0x20 to 0x2F: `-` `.` `/`
    false, false, false, false, false, false, false, false, false, false, false, false, false,
    true, true, true,
    // 0x30 to 0x3F: 0 to 9
    true, true, true, true, true, true, true, true, true, true, false, false, false, false, false,
    false,
    // 0x40 to 0x4F: A to O
    false, true, true, true, true, true, true, true, true, true, true, true, true, true, true,
    true,
    // 0x50 to 0x5F: P to Z, `_`
    true, true, true, true, true, true, true, true, true, true, true, false, false, false, false,
    true,
    // 0x60 to 0x6F: a to o
    false, true, true, true, true, true, true, true, true, true, true, true, true, true, true,
    true,
    // 0x70 to 0x7F: p to z
    true, true, true, true, true, true, true, true, true, true, true, false, false, false, false,
    false,
    // 0x80 to 0x8F: none
    false, false, false, false, false, false, false, false, false, false, false, false, false,
    false, false, false,
    // 0x90 to 0x9F: none
    false, false, false, false, false, false, false, false, false, false, false, false, false,
    false, false, false,
    // 0xA0 to 0xAF: none
    false, false, false, false, false, false, false, false, false, false, false, false, false,
    false, false, false,
    // 0xB0 to 0xBF: none
    false, false, false, false, false, false, false, false, false, false, false, false, false,
    false, false, false,
    // 0xC0 to 0xCF: none
    false, false, false, false, false, false, false, false, false, false, false, false, false,
    false, false, false,
    // 0xD0 to 0xDF: none
    false, false, false, false, false, false, false, false, false, false, false, false, false,
    false, false, false,
    // 0xE0 to 0xEF: none
    false, false, false, false, false, false, false, false, false, false, false, false, false,
    false, false, false,
    // 0xF0 to 0xFF: none
    false, false, false, false, false, false, false, false, false, false, false, false, false,
    false, false, false,
];

// Whether a byte is in the alphabet.
pub fn in_house(byte: u8) -> bool
    ensures { result ≡ house byte }
{
    HOUSE[usize::from(byte)]
}
