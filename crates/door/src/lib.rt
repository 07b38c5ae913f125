// The twin, its dumps and the images for other languages, over numbers and slices; include/qillampu.h declares the four
// functions for C, and the crate door_c exports them. None has a `requires`, and each says for every input its answer, the
// reply row and what each lent row holds at the end.
#![tactic(auto)]

ghost use Rattle.telling.specs.Told.{ReadsThrough, WritesThrough};
ghost use Rattle.door.specs.Promises.{ReplaysOnce, ReplaysDump};

// Power-up and the replay of one capture.
pub fn qillampu_replay(
    part: u16,
    select: u8,
    stored: u8,
    elapsed: &[u32],
    levels: &[u8],
    array: &mut [u8],
    answers: &mut [u8],
    reply: &mut [u64],
) -> u8
    ensures { ReplaysOnce part select stored elapsed.now levels.now array.old answers.old reply.old result array.new answers.new reply.new }
{
    if reply.len() != telling::NUMBERS {
        return telling::NOT_DONE;
    }
    telling::tell(
        reply,
        captures::capture(part, select, stored, elapsed, levels, array, answers),
    );
    telling::DONE
}

// Power-up and the replay of a whole dump: the places where it and the twin disagree.
pub fn qillampu_replay_dump(
    part: u16,
    select: u8,
    stored: u8,
    dump: &[u8],
    array: &mut [u8],
    places: &mut [u64],
    reply: &mut [u64],
) -> u8
    ensures { ReplaysDump part select stored dump.now array.old places.old reply.old result array.new places.new reply.new }
{
    if reply.len() != telling::NUMBERS {
        return telling::NOT_DONE;
    }
    telling::tell(
        reply,
        at_once::report(part, select, stored, dump, array, places),
    );
    telling::DONE
}

// Reads an image into the array of a part.
pub fn qillampu_read_image(part: u16, text: &[u8], array: &mut [u8], reply: &mut [u64]) -> u8
    ensures { ReadsThrough part text.now array.old reply.old result array.new reply.new }
{
    telling::read_image(part, text, array, reply)
}

// Writes the image of a part's array at the start of `out`.
pub fn qillampu_write_image(part: u16, array: &[u8], out: &mut [u8], reply: &mut [u64]) -> u8
    ensures { WritesThrough part array.now out.old reply.old result out.new reply.new }
{
    telling::write_image(part, array, out, reply)
}
