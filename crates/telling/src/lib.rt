// A reply told in two numbers, for languages that have no enums; and the image operations that tell theirs so. A reply row of
// another length than two has no room for it: nothing is done then.
#![tactic(auto)]

ghost use Rattle.std.specs.Prelude.{◌≡◌, length};
ghost use Rattle.ground.specs.Verdict.{refused, meant};
ghost use Rattle.telling.specs.Told.{told, ReadsThrough, WritesThrough};

use ground::Reply;

// Numbers in a reply row.
pub const NUMBERS: usize = 2;

// The answers: the reply row has the reply, or it is of another length and nothing was done.
pub const DONE: u8 = 1;

pub const NOT_DONE: u8 = 0;

// Writes a refusal as its number and its place. It takes any number, as it promises the row of each.
pub fn tell_refusal(row: &mut [u64], number: u8, place: usize)
    requires { length row.old ≡ 2 }
    ensures { row.new ≡ told (refused number place) }
{
    row.copy_from_slice(&[u64::from(number), place as u64]);
}

// Writes a reply as two numbers: 0 and the count, or the refusal's number and its place.
#[tactic(auto, unfolding(ground::specs::Verdict::meant))]
pub fn tell(row: &mut [u64], reply: Reply)
    requires { length row.old ≡ 2 }
    ensures { row.new ≡ told (meant reply) }
{
    match reply {
        Ok(count) => row.copy_from_slice(&[0, count as u64]),
        Err(refusal) => tell_refusal(row, refusal.reason.into(), refusal.place),
    }
}

// Reads an image into the array of a part. The row's length is tested here and below: a closure round the operation would say no more
// of the rows that are lent to it.
pub fn read_image(part: u16, text: &[u8], array: &mut [u8], reply: &mut [u64]) -> u8
    ensures { ReadsThrough part text.now array.old reply.old result array.new reply.new }
{
    if reply.len() != NUMBERS {
        return NOT_DONE;
    }
    tell(reply, image::read_image(part, text, array));
    DONE
}

// Writes the image of a part's array at the start of `out`.
pub fn write_image(part: u16, array: &[u8], out: &mut [u8], reply: &mut [u64]) -> u8
    ensures { WritesThrough part array.now out.old reply.old result out.new reply.new }
{
    if reply.len() != NUMBERS {
        return NOT_DONE;
    }
    tell(reply, image::write_image(part, array, out));
    DONE
}
