// The places where a dump and the twin disagree, gathered from the rows of one piece.
#![tactic(auto)]

ghost use Rattle.std.specs.Prelude.{◌≡◌, ◌≤◌, ◌+◌, length};
ghost use Rattle.places.specs.Places.{disagrees};
ghost use Rattle.places.specs.Parts.{Gathers, LaysOut, BringsOut};

// SCL high, SDA high in the dump, and the twin pulls it low.
#[tactic(auto, using(crate::proofs::PlaceLaws::high_tells, crate::proofs::PlaceLaws::low_tells))]
pub fn disagree(level: u8, answer: u8) -> bool
    ensures { result ≡ disagrees level answer }
{
    level % 4 == 3 && answer % 2 == 0
}

// Adds the places of a piece to those found before, as far as the row goes, and answers how many there are in all.
pub fn gather(
    levels: &[u8],
    answers: &[u8],
    first: usize,
    places: &mut [u64],
    before: usize,
) -> usize
    requires answers_len { length answers.now ≡ length levels.now }
    requires levels_bound { first + length levels.now ≤ 18446744073709551615 }
    requires before_le_first { before ≤ first }
    ensures { Gathers levels.now answers.now first places.old before result places.new }
{
    let mut found = before;
    for (i, &level) in levels.iter().enumerate() {
        if disagree(level, answers[i]) {
            if found < places.len() {
                places[found] = (first + i) as u64;
            }
            found += 1;
        }
    }
    found
}

// Lays the first places of a room over a row, if the room holds all that the row wants.
fn lay_out(room: &[u64], found: usize, places: &mut [u64]) -> bool
    ensures { LaysOut room.now found places.old places.new result }
{
    let wanted = found.min(places.len());
    if wanted > room.len() {
        return false;
    }
    places[..wanted].copy_from_slice(&room[..wanted]);
    true
}

// Brings out what was found beside an array: a copy of it back, and the first places of a room into a row, if the room holds all that the
// row wants.
pub fn bring_out(
    room: &[u64],
    found: usize,
    copy: &[u8],
    array: &mut [u8],
    places: &mut [u64],
) -> bool
    requires { length copy.now ≡ length array.old }
    ensures { BringsOut room.now found copy.now array.old places.old result array.new places.new }
{
    let done = lay_out(room, found, places);
    if done {
        array.copy_from_slice(copy);
    }
    done
}
