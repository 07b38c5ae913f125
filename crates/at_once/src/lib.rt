// The report of a dump in one reading: it is judged and replayed piece after piece on a copy of the array, and only if it was sound to its
// end is the copy brought out. Whatever else comes is left to the report in two readings.
#![tactic(auto)]

ghost use Rattle.std.specs.Prelude.{◌≡◌, ◌≤◌, length};
ghost use Rattle.part.specs.Bench.{part_of};
ghost use Rattle.ranges.specs.Fit.{Fit};
ghost use Rattle.disagreements.specs.Promises.{Reports};
ghost use Rattle.at_once.specs.Promises.{Ready, Passes, Tries, TriesReport};

use ground::{Reply, kinds};
use one_reading::Track;
use part::state::State;

// The samples of a piece: rows of this length are quickly cleared.
pub const PIECE: usize = 1024;

// The places that are kept until the dump is known to be sound. Their room has to be cleared, so it is small for a short dump, larger for a
// longer one, and largest for a long one; a dump with more places than that, all of them wanted by the row, is read in two readings.
const SHORT: usize = 16_384;

const LONGER: usize = 262_144;

const FEW: usize = 512;

const MORE: usize = 4_096;

const MANY: usize = 16_384;

// The arrays that have a room for their copy here; one of another size is left to the report in two readings.
const SMALL: usize = kinds::SMALL_SIZE as usize;

const LARGE: usize = kinds::LARGE_SIZE as usize;

// Reads, judges and replays a dump piece after piece, and answers how many places disagree; nothing comes of it where something is wrong.
fn play_through(
    dump: &[u8],
    table: &[u8],
    from: Track,
    powered: State,
    array: &mut [u8],
    room: &mut [u64],
    elapsed: &mut [u32],
    levels: &mut [u8],
    answers: &mut [u8],
) -> Option<usize>
    requires ready { Ready dump.now table.now «from» powered array.old }
    requires elapsed_len { length elapsed.old ≡ 1024 }
    requires levels_len { length levels.old ≡ 1024 }
    requires answers_len { length answers.old ≡ 1024 }
    ensures { Passes dump.now (part_of powered array.old) room.old result array.new room.new }
{
    let mut track = Some(from);
    let mut state = powered;
    let mut next = 0;
    let mut found = 0;
    while let Some(here) = track {
        let went = one_reading::fill(dump, table, Some(here), elapsed, levels)?;
        let count = went.count;
        let replayed = twin::replay(
            state,
            &elapsed[..count],
            &levels[..count],
            array,
            &mut answers[..count],
        );
        found = places::gather(&levels[..count], &answers[..count], next, room, found);
        state = replayed.state;
        next += count;
        track = went.track;
    }
    Some(found)
}

// Plays a dump through on a copy of the array, and brings copy and places out if all of it was sound.
fn on_copy(
    dump: &[u8],
    table: &[u8],
    from: Track,
    powered: State,
    array: &mut [u8],
    copy: &mut [u8],
    room: &mut [u64],
    places: &mut [u64],
) -> Option<usize>
    requires ready { Ready dump.now table.now «from» powered array.old }
    requires copy_len { length copy.old ≡ length array.old }
    ensures { Tries dump.now powered array.old places.old result array.new places.new }
{
    copy.copy_from_slice(array);
    let mut elapsed = [0u32; PIECE];
    let mut levels = [0u8; PIECE];
    let mut answers = [0u8; PIECE];
    let found = play_through(
        dump,
        table,
        from,
        powered,
        copy,
        room,
        &mut elapsed,
        &mut levels,
        &mut answers,
    )?;
    places::bring_out(room, found, copy, array, places).then_some(found)
}

// Reads a dump once for a part that is powered up.
fn read_once(
    dump: &[u8],
    powered: State,
    array: &mut [u8],
    copy: &mut [u8],
    room: &mut [u64],
    places: &mut [u64],
) -> Option<usize>
    requires fit { Fit (part_of powered array.old) }
    requires copy_len { length copy.old ≡ length array.old }
    ensures { Tries dump.now powered array.old places.old result array.new places.new }
{
    let mut table = [0u8; headings::CODES];
    let defined = headings::define(dump, &mut table);
    let track = one_reading::start(dump, &table, defined)?;
    on_copy(dump, &table, track, powered, array, copy, room, places)
}

// Powers the part up, and reads the dump once if part and array are accepted.
fn try_once(
    part: u16,
    select: u8,
    stored: u8,
    dump: &[u8],
    array: &mut [u8],
    copy: &mut [u8],
    room: &mut [u64],
    places: &mut [u64],
) -> Option<usize>
    requires { length copy.old ≡ length array.old }
    ensures { TriesReport part select stored dump.now array.old places.old result array.new places.new }
{
    let powered = twin::power_up(part, select, stored);
    if powered.reply.is_err() {
        return None;
    }
    let kind = kinds::kind_of(part);
    if array.len() != usize::from(kind.size) {
        return None;
    }
    read_once(dump, powered.state, array, copy, room, places)
}

// On a copy of an array of a size.
fn on_array<const SIZE: usize>(
    part: u16,
    select: u8,
    stored: u8,
    dump: &[u8],
    array: &mut [u8],
    room: &mut [u64],
    places: &mut [u64],
) -> Option<usize>
    requires { length array.old ≡ SIZE }
    ensures { TriesReport part select stored dump.now array.old places.old result array.new places.new }
{
    let mut copy = [0u8; SIZE];
    try_once(part, select, stored, dump, array, &mut copy, room, places)
}

// On a copy of the array, whichever part's it is.
fn by_size(
    part: u16,
    select: u8,
    stored: u8,
    dump: &[u8],
    array: &mut [u8],
    room: &mut [u64],
    places: &mut [u64],
) -> Option<usize>
    ensures { TriesReport part select stored dump.now array.old places.old result array.new places.new }
{
    match array.len() {
        SMALL => on_array::<SMALL>(part, select, stored, dump, array, room, places),
        LARGE => on_array::<LARGE>(part, select, stored, dump, array, room, places),
        _ => None,
    }
}

// With a room for so many places.
fn in_room<const ROOM: usize>(
    part: u16,
    select: u8,
    stored: u8,
    dump: &[u8],
    array: &mut [u8],
    places: &mut [u64],
) -> Option<usize>
    requires { ROOM ≤ 16384 }
    ensures { TriesReport part select stored dump.now array.old places.old result array.new places.new }
{
    let mut room = [0u64; ROOM];
    by_size(part, select, stored, dump, array, &mut room, places)
}

// With a room by the dump's length.
fn by_length(
    part: u16,
    select: u8,
    stored: u8,
    dump: &[u8],
    array: &mut [u8],
    places: &mut [u64],
) -> Option<usize>
    ensures { TriesReport part select stored dump.now array.old places.old result array.new places.new }
{
    if dump.len() <= SHORT {
        in_room::<FEW>(part, select, stored, dump, array, places)
    } else if dump.len() <= LONGER {
        in_room::<MORE>(part, select, stored, dump, array, places)
    } else {
        in_room::<MANY>(part, select, stored, dump, array, places)
    }
}

// The report of a whole dump: how many places disagree, and the first of them in the row, ascending. A refusal changes nothing.
pub fn report(
    part: u16,
    select: u8,
    stored: u8,
    dump: &[u8],
    array: &mut [u8],
    places: &mut [u64],
) -> Reply
    ensures { Reports part select stored dump.now array.old places.old result array.new places.new }
{
    match by_length(part, select, stored, dump, array, places) {
        Some(found) => Ok(found),
        None => disagreements::report(part, select, stored, dump, array, places),
    }
}
