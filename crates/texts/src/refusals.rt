// The line of a refusal.
ghost use Rattle.std.specs.Prelude.{◌≤◌, length};
ghost use Rattle.texts.specs.Refusal.{refusal_line};
ghost use Rattle.texts.specs.Laying.{Starts};

use crate::numbers;

const SPACE: u8 = b' ';

// The longest line: two numbers of at most 20 digits, a space and a line feed.
pub const LONGEST: usize = 42;

// Writes a refusal's line over the start of `out`, and answers its length. It takes any number, as it promises the line of each.
pub fn put_refusal(number: u8, place: usize, out: &mut [u8]) -> usize
    requires { 42 ≤ length out.old }
    ensures { Starts (refusal_line number place) out.old result out.new }
{
    let first = numbers::put_decimal(u64::from(number), out, 0);
    out[first] = SPACE;
    let last = numbers::put_decimal(place as u64, out, first + 1);
    out[last] = lines::LINE_FEED;
    last + 1
}
