// Bytes as pairs of digits.
ghost use Rattle.std.specs.Prelude.{◌≡◌, ◌+◌, ◌*◌, ◌-◌, ◌≤◌, length, take, drop};
ghost use Rattle.std.proofs.lemmas.List.Edits.{sets};
ghost use Rattle.hexfile.specs.Pairs.{text_of};
ghost use Rattle.hexfile.specs.Parts.{all_digits, values_of};
ghost use Rattle.hexfile.specs.Promises.{Decodes};

// Characters that are decoded at once, and the bytes that they give.
const WINDOW: usize = 16;

const BYTES: usize = 8;

// Whether the characters are all digits. It looks at each in any case, so that many are tested at once.
fn all_digits(text: &[u8]) -> bool
    ensures { result ≡ all_digits text.now }
{
    text.iter().fold(true, |all, &c| all & digits::is_digit(c))
}

// Whether the last sixteen characters are digits, or all where there are fewer.
fn ends_in_digits(text: &[u8]) -> bool
    ensures { result ≡ all_digits (drop (length text.now - 16) text.now) }
{
    if text.len() >= WINDOW {
        let last = text.len() - WINDOW;
        return all_digits(&text[last..]);
    }
    if text.len() >= BYTES {
        let last = text.len() - BYTES;
        return all_digits(&text[..BYTES]) & all_digits(&text[last..]);
    }
    all_digits(text)
}

// Puts the bytes of pairs of values into a room of their number.
fn join(text: &[u8], room: &mut [u8])
    requires { length text.now ≡ 2 * length room.old }
    ensures { room.new ≡ values_of text.now }
{
    for (i, byte) in room.iter_mut().enumerate() {
        *byte = digits::value(text[2 * i]) * digits::BASE + digits::value(text[2 * i + 1]);
    }
}

// The same of the first characters, at most sixteen. Where the text goes on, it takes sixteen all the same.
fn join_first(text: &[u8], count: usize, room: &mut [u8])
    requires count_in_bounds { 2 * count ≤ length text.now }
    requires count_bound { count ≤ 8 }
    requires in_bounds { 8 ≤ length room.old }
    ensures { take count room.new ≡ values_of (take (2 * count) text.now) }
{
    if text.len() < WINDOW {
        let n = 2 * count;
        join(&text[..n], &mut room[..count]);
    } else {
        join(&text[..WINDOW], &mut room[..BYTES]);
    }
}

// Puts the bytes of the pairs that the first `n` characters are at the start of `room`, and answers whether they are pairs of
// digits. What follows these characters may be looked at, and does not count.
pub fn decode(text: &[u8], n: usize, room: &mut [u8]) -> bool
    requires n_in_bounds { n ≤ length text.now }
    requires n_bound { n + 16 ≤ 2 * length room.old }
    ensures { Decodes (take n text.now) result room.new }
{
    if n % 2 != 0 {
        return false;
    }
    // Counted by hand: the last window, whole or not, is left to `join_first`, and two rows of unlike parts are walked.
    let mut from = 0;
    let mut at = 0;
    while n - from > WINDOW {
        let to = from + WINDOW;
        let end = at + BYTES;
        let window = &text[from..to];
        if !all_digits(window) {
            return false;
        }
        join(window, &mut room[at..end]);
        from = to;
        at = end;
    }
    join_first(&text[from..], n / 2 - at, &mut room[at..]);
    ends_in_digits(&text[..n])
}

// Writes the digits of the bytes over `out` from `at` on.
pub fn encode(bytes: &[u8], out: &mut [u8], at: usize)
    requires { at + 2 * length bytes.now ≤ length out.old }
    ensures { out.new ≡ sets out.old at (text_of bytes.now) }
{
    for (i, &byte) in bytes.iter().enumerate() {
        let to = at + 2 * i;
        out[to] = digits::high(byte);
        out[to + 1] = digits::low(byte);
    }
}
