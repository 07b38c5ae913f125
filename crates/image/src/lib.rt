// Memory images in Intel's hexadecimal object format. The operations are `read_image` and `write_image`; each is the same operation
// in any form of record, at Intel's.
#![tactic(auto)]

ghost use Rattle.std.specs.Prelude.{◌≡◌, ◌≤◌, length, replicate};
ghost use Rattle.ground.specs.Kind.{kind_of, known};
ghost use Rattle.ground.specs.Numbers.{large_size};
ghost use Rattle.cells.specs.Cells.{not_given};
ghost use Rattle.reader.specs.Parts.{ReadsInto};
ghost use Rattle.intel.specs.Intel.{intel};
ghost use Rattle.image.specs.Promises.{sized, ReadsImage, WritesImage};
ghost use Rattle.image.specs.Parts.{array_size_by};

use formats::{Intel, RecordForm};
pub use ground::Reply;
use ground::{Reason, kinds};

// The sizes of the smaller and the larger kind of part.
const SMALL: usize = kinds::SMALL_SIZE as usize;

pub const LARGE: usize = kinds::LARGE_SIZE as usize;

// The longest fixed form of the larger kind's array in Intel's form.
pub const LONGEST: usize = intel_rows::ROW_LENGTH * (LARGE / forms::ROW) + intel_rows::END_LENGTH;

// The longest text that is read.
pub const MOST_TEXT: usize = 65_536;

// The size of the array of the part that a number names, where an array of some length has it: else refusal 1 or 5.
fn array_size(part: u16, len: usize) -> Result<usize, Reason>
    ensures { result ≡ array_size_by (known part) (sized part len) (kind_of part).size }
{
    let size = kinds::size_of(part).ok_or(Reason::PartUnknown)? as usize;
    if len != size {
        return Err(Reason::ArrayLength);
    }
    Ok(size)
}

// Reads a text over cells of which none is given, as many as the array has bytes, in room for `N`.
fn read_in<F: RecordForm, const N: usize>(text: &[u8], array: &mut [u8]) -> Reply
    requires text_len_bound { length text.now ≤ 65536 }
    requires array_len_bound { length array.old ≤ N }
    requires room_bound { N ≤ large_size }
    ensures { ReadsInto F.form_of text.now (replicate (length array.old) not_given) array.old result array.new }
{
    let mut cells = [cells::NOT_GIVEN; N];
    reader::read_over::<F>(text, &mut cells, array)
}

// The same in room enough for any part: a smaller array does not pay for the larger one's.
fn read_fresh<F: RecordForm>(text: &[u8], array: &mut [u8]) -> Reply
    requires text_len_bound { length text.now ≤ 65536 }
    requires array_len_bound { length array.old ≤ large_size }
    ensures { ReadsInto F.form_of text.now (replicate (length array.old) not_given) array.old result array.new }
{
    if array.len() <= SMALL {
        read_in::<F, SMALL>(text, array)
    } else {
        read_in::<F, LARGE>(text, array)
    }
}

// Reads an image of a form into the array of a part, or refuses it with 1, 5 or 11 to 18 and leaves the array alone.
fn read<F: RecordForm>(part: u16, text: &[u8], array: &mut [u8]) -> Reply
    ensures { ReadsImage F.form_of part text.now array.old result array.new }
{
    array_size(part, array.len())?;
    if text.len() > MOST_TEXT {
        return Err(Reason::TextTooLong.into());
    }
    read_fresh::<F>(text, array)
}

// Writes the array of a part in the fixed form at the start of `out`, or refuses with 1, 5 or 19 and leaves it alone.
fn write<F: RecordForm>(part: u16, array: &[u8], out: &mut [u8]) -> Reply
    ensures { WritesImage F.form_of part array.now out.old result out.new }
{
    let size = array_size(part, array.len())?;
    if out.len() < F::lines_length(size / forms::ROW) {
        return Err(Reason::RoomTooSmall.into());
    }
    Ok(writer::put_rows::<F>(array, out))
}

// Reads an image in Intel's form.
pub fn read_image(part: u16, text: &[u8], array: &mut [u8]) -> Reply
    ensures { ReadsImage intel part text.now array.old result array.new }
{
    read::<Intel>(part, text, array)
}

// Writes an image in Intel's form.
pub fn write_image(part: u16, array: &[u8], out: &mut [u8]) -> Reply
    ensures { WritesImage intel part array.now out.old result out.new }
{
    write::<Intel>(part, array, out)
}
