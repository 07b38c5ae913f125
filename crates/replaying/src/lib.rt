// The work of the program `replay`: from a dump and an image to what is written for them.
#![tactic(auto)]

pub mod rooms;

ghost use Rattle.std.specs.Prelude.{◌≡◌, length};
ghost use Rattle.ground.specs.Kind.{kind_of};
ghost use Rattle.disagreements.specs.Promises.{Stands};
ghost use Rattle.replaying.specs.Promises.{Readies, Tells};

use disagreements::{Opened, Stand};

// What was written of a piece, and where the dump is left.
#[derive(Clone, Copy)]
pub struct Told {
    pub count: usize,
    pub length: usize,
    pub stand: Stand,
}

// Judges part, select and stored byte, then the image, then the dump; if all are sound the image is in the array.
pub fn start(
    part: u16,
    select: u8,
    stored: u8,
    image: &[u8],
    dump: &[u8],
    array: &mut [u8],
) -> Opened
    requires { length array.old ≡ (kind_of part).size }
    ensures { Readies part select stored image.now dump.now result array.new }
{
    let opened = disagreements::begin(part, select, stored, dump, array);
    let powered = twin::power_up(part, select, stored);
    if powered.reply.is_err() {
        return Opened {
            reply: powered.reply,
            ..opened
        };
    }
    let read = image::read_image(part, image, array);
    if read.is_err() {
        return Opened {
            reply: read,
            ..opened
        };
    }
    opened
}

// The same as `tell`, with the rows and the room for the text as slices.
fn tell_rows(
    dump: &[u8],
    stand: Stand,
    array: &mut [u8],
    elapsed: &mut [u32],
    levels: &mut [u8],
    answers: &mut [u8],
    out: &mut [u8],
) -> Told
    requires stands { Stands dump.now stand array.old }
    requires elapsed_len { length elapsed.old ≡ 4096 }
    requires levels_len { length levels.old ≡ 4096 }
    requires answers_len { length answers.old ≡ 4096 }
    requires out_len { length out.old ≡ 86016 }
    ensures { Tells dump.now stand array.old out.old result array.new out.new }
{
    let first = stand.next;
    let played = disagreements::play(dump, stand, array, elapsed, levels, answers);
    let count = played.count;
    let length = listing::put_places(&levels[..count], &answers[..count], first, out);
    Told {
        count,
        length,
        stand: played.stand,
    }
}

// Replays the next piece of a dump, and writes a line for each place that disagrees over the start of `out`.
pub fn tell(
    dump: &[u8],
    stand: Stand,
    array: &mut [u8],
    elapsed: &mut [u32; disagreements::PIECE],
    levels: &mut [u8; disagreements::PIECE],
    answers: &mut [u8; disagreements::PIECE],
    out: &mut [u8; rooms::TEXT],
) -> Told
    requires { Stands dump.now stand array.old }
    ensures { Tells dump.now stand array.old out.old result array.new out.new }
{
    tell_rows(dump, stand, array, elapsed, levels, answers, out)
}
