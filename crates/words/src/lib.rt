// Number words of a command line: decimal, or hexadecimal after `0x`.
#![tactic(auto)]

ghost use Rattle.std.specs.Prelude.{◌≡◌, ◌+◌, ◌*◌, min};
ghost use Rattle.words.specs.Words.{part_given, byte_given, figure_of, numeral, figures_value, is_number, counts_as, after_mark};

use ground::kinds;

const TEN: u8 = 10;

// The part where no word names one.
pub const LEFT_OUT: u16 = kinds::X4323;

// The value of a character as a digit; of one that is no digit the base, which no digit reaches, so that one comparison tells.
#[tactic(auto, unfolding(crate::specs::Words::figure_of))]
fn digit(character: u8) -> u8
    ensures { result ≡ figure_of character }
{
    match character {
        b'0'..=b'9' => character - b'0',
        b'A'..=b'F' => character - b'A' + TEN,
        b'a'..=b'f' => character - b'a' + TEN,
        _ => digits::BASE,
    }
}

// Whether characters are a number in a base.
fn is_numeral(base: u8, characters: &[u8]) -> bool
    ensures { result ≡ numeral base characters.now }
{
    !characters.is_empty() && characters.iter().all(|&c| digit(c) < base)
}

// A number with one digit more, as far as it is not too wide.
fn with_digit(value: u32, base: u8, character: u8, most: u32) -> u32
    ensures { result ≡ min (value * base + figure_of character) most }
{
    let wide = u64::from(value) * u64::from(base) + u64::from(digit(character));
    wide.min(u64::from(most)) as u32
}

// The value of a number's digits, or `most` where that is less.
fn value(base: u8, digits: &[u8], most: u32) -> u32
    ensures { result ≡ min (figures_value base digits.now) most }
{
    digits
        .iter()
        .fold(0, |so_far, &c| with_digit(so_far, base, c, most))
}

// The digits of a hexadecimal word; none where it has no mark.
fn after_mark(word: &[u8]) -> &[u8]
    ensures { result.now ≡ after_mark word.now }
{
    match word {
        [b'0', b'x', digits @ ..] => digits,
        _ => &[],
    }
}

// Whether a word is a number.
pub fn is_number(word: &[u8]) -> bool
    ensures { result ≡ is_number word.now }
{
    is_numeral(TEN, word) || is_numeral(digits::BASE, after_mark(word))
}

// What a word counts in a field whose largest value is `most`: its value, or `most` where it is no number or too wide.
pub fn number_of(word: &[u8], most: u32) -> u32
    ensures { result ≡ counts_as most word.now }
{
    let marked = after_mark(word);
    if is_numeral(TEN, word) {
        value(TEN, word, most)
    } else if is_numeral(digits::BASE, marked) {
        value(digits::BASE, marked, most)
    } else {
        most
    }
}

// The part that a program's word names, or the usual one where there is no word.
#[tactic(auto, using(crate::proofs::WordLaws::number_within))]
pub fn part_given(word: Option<&[u8]>) -> u16
    ensures { result ≡ part_given word.entry }
{
    match word {
        Some(word) => number_of(word, u32::from(u16::MAX)) as u16,
        None => LEFT_OUT,
    }
}

// The select or the stored byte that a program's word gives, or 0 where there is no word.
#[tactic(auto, using(crate::proofs::WordLaws::number_within))]
pub fn byte_given(word: Option<&[u8]>) -> u8
    ensures { result ≡ byte_given word.entry }
{
    match word {
        Some(word) => number_of(word, u32::from(u8::MAX)) as u8,
        None => 0,
    }
}
