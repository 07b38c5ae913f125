// The lines of a report: a place to a line.
#![tactic(auto)]

ghost use Rattle.std.specs.Prelude.{◌≡◌, ◌≤◌, ◌+◌, ◌*◌, length};
ghost use Rattle.texts.specs.Laying.{Starts};
ghost use Rattle.places.specs.Places.{places_from};
ghost use Rattle.listing.specs.Listing.{places_text};

use texts::numbers;

// Writes a line for each place of a piece that disagrees over the start of `out`, and answers the length.
pub fn put_places(levels: &[u8], answers: &[u8], first: usize, out: &mut [u8]) -> usize
    requires answers_len { length answers.now ≡ length levels.now }
    requires levels_bound { first + length levels.now ≤ 18446744073709551615 }
    requires levels_in_bounds { 21 * length levels.now ≤ length out.old }
    ensures { Starts (places_text (places_from first levels.now answers.now)) out.old result out.new }
{
    let mut at = 0;
    for (i, &level) in levels.iter().enumerate() {
        if places::disagree(level, answers[i]) {
            at = numbers::put_decimal((first + i) as u64, out, at);
            out[at] = lines::LINE_FEED;
            at += 1;
        }
    }
    at
}
