// The functions of the crate door under their names in C, as include/qillampu.h declares them, with the clauses that they have there.
#![tactic(auto)]

ghost use Rattle.telling.specs.Told.{ReadsThrough, WritesThrough};
ghost use Rattle.door.specs.Promises.{ReplaysOnce, ReplaysDump};

// Power-up and the replay of one capture.
#[unsafe(no_mangle)]
pub extern "C" fn qillampu_replay(
    part: u16,
    select: u8,
    stored: u8,
    elapsed: &[u32],
    levels: &[u8],
    array: &mut [u8],
    answers: &mut [u8],
    reply: &mut [u64],
) -> u8
    ensures { ReplaysOnce part select stored elapsed.now levels.now array.old answers.old reply.old result array.new answers.new reply.new }
{
    door::qillampu_replay(part, select, stored, elapsed, levels, array, answers, reply)
}

// Power-up and the replay of a whole dump: the places where it and the twin disagree.
#[unsafe(no_mangle)]
pub extern "C" fn qillampu_replay_dump(
    part: u16,
    select: u8,
    stored: u8,
    dump: &[u8],
    array: &mut [u8],
    places: &mut [u64],
    reply: &mut [u64],
) -> u8
    ensures { ReplaysDump part select stored dump.now array.old places.old reply.old result array.new places.new reply.new }
{
    door::qillampu_replay_dump(part, select, stored, dump, array, places, reply)
}

// Reads an image into the array of a part.
#[unsafe(no_mangle)]
pub extern "C" fn qillampu_read_image(
    part: u16,
    text: &[u8],
    array: &mut [u8],
    reply: &mut [u64],
) -> u8
    ensures { ReadsThrough part text.now array.old reply.old result array.new reply.new }
{
    door::qillampu_read_image(part, text, array, reply)
}

// Writes the image of a part's array at the start of `out`.
#[unsafe(no_mangle)]
pub extern "C" fn qillampu_write_image(
    part: u16,
    array: &[u8],
    out: &mut [u8],
    reply: &mut [u64],
) -> u8
    ensures { WritesThrough part array.now out.old reply.old result out.new reply.new }
{
    door::qillampu_write_image(part, array, out, reply)
}
