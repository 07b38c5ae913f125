// Hexadecimal digits, upper case.
#![tactic(auto)]

ghost use Rattle.std.specs.Prelude.{◌≡◌, ◌<◌, ◌/◌, ◌%◌, ltb};
ghost use Rattle.digits.specs.Digits.{within, is_digit, glyph_of};
ghost use Rattle.digits.specs.Values.{shift_by, value_of};

// How many digits there are.
pub const BASE: u8 = 16;

// Whether a character lies between two others, both included.
pub fn within(low: u8, high: u8, character: u8) -> bool
    ensures { result ≡ within low high character }
{
    (low..=high).contains(&character)
}

// Whether a character is a digit.
pub fn is_digit(character: u8) -> bool
    ensures { result ≡ is_digit character }
{
    within(b'0', b'9', character) | within(b'A', b'F', character)
}

// What a letter's value has beyond its lower four bits.
fn shift(character: u8) -> u8
    ensures { result ≡ shift_by (ltb character 0x41) }
{
    if character < b'A' { 0 } else { 9 }
}

// The value of a digit; of any other character it means nothing.
#[tactic(auto, using(crate::proofs::DigitLaws::shift_small), unfolding(crate::specs::Values::value_of))]
pub fn value(character: u8) -> u8
    ensures { result ≡ value_of character }
{
    (character % BASE + shift(character)) % BASE
}

#[tactic(auto, unfolding(crate::specs::Digits::glyph_of))]
fn glyph(value: u8) -> u8
    requires { value < 16 }
    ensures { result ≡ glyph_of value }
{
    match value {
        0..=9 => b'0' + value,
        _ => b'A' + (value - 10),
    }
}

// The character of a byte's higher digit.
pub fn high(byte: u8) -> u8
    ensures { result ≡ glyph_of (byte / 16) }
{
    glyph(byte / BASE)
}

// The character of a byte's lower digit.
pub fn low(byte: u8) -> u8
    ensures { result ≡ glyph_of (byte % 16) }
{
    glyph(byte % BASE)
}
