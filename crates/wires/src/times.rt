// The number of a time line.
ghost use Rattle.std.specs.Prelude.{◌≡◌, ◌<◌, MatchOption};
ghost use Rattle.wires.specs.Times.{no_time, time_of, with_digit};

// The character that a time line begins with.
pub const HASH: u8 = b'#';

// A number with one more digit, as far as it is a time.
fn with_digit(so_far: u32, character: u8) -> Option<u32>
    ensures { result ≡ with_digit so_far character }
{
    if !character.is_ascii_digit() {
        return None;
    }
    let tens = so_far.checked_mul(10)?;
    tens.checked_add(u32::from(character - b'0'))
}

// The time that digits give; none where they are none, hold another character or give more than the highest, which is the highest u32.
pub fn time_of(digits: &[u8]) -> Option<u32>
    ensures { MatchOption result (time_of digits.now ≡ no_time) (λ time. (time ≡ time_of digits.now) × (time < no_time)) }
{
    if digits.is_empty() {
        return None;
    }
    let mut time = 0;
    for &character in digits {
        time = with_digit(time, character)?;
    }
    Some(time)
}
