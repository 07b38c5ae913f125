// The work of the program `tidy`: from the text of an image to what is written for it.
#![tactic(auto)]

pub mod rooms;

ghost use Rattle.std.specs.Prelude.{◌≡◌, ◌≤◌, length};
ghost use Rattle.ground.specs.Numbers.{large_size};
ghost use Rattle.ground.specs.Kind.{kind_of};
ghost use Rattle.forms.specs.Writing.{most_length};
ghost use Rattle.intel.specs.Intel.{intel};
ghost use Rattle.texts.specs.Laying.{Starts};
ghost use Rattle.words.specs.Words.{part_given};
ghost use Rattle.tidying.specs.Shown.{shown_of};
ghost use Rattle.tidying.specs.Parts.{Tidies};

use ground::{Reply, kinds};
use texts::refusals;

// Reads an image's text into the array that is lent, as many bytes as the part has, and writes its fixed form over `out`.
fn tidied(part: u16, text: &[u8], array: &mut [u8], out: &mut [u8]) -> Reply
    requires array_len { length array.old ≡ (kind_of part).size }
    requires large_size_in_bounds { most_length intel large_size ≤ length out.old }
    ensures { Tidies part text.now out.old result out.new }
{
    image::read_image(part, text, array)?;
    image::write_image(part, array, out)
}

// Writes the fixed form of an image's text, for the array of a part, at the start of `out`, or the line of its refusal, and answers the
// length.
pub fn fixed_form(part: u16, text: &[u8], out: &mut [u8; image::LONGEST]) -> usize
    ensures { Starts (shown_of part text.now) out.old result out.new }
{
    let mut array = [0; image::LARGE];
    let size = usize::from(kinds::kind_of(part).size);
    match tidied(part, text, &mut array[..size], out) {
        Ok(length) => length,
        Err(refusal) => refusals::put_refusal(refusal.reason.into(), refusal.place, out),
    }
}

// The same for the part that the program's word names, if there is one.
pub fn by_word(word: Option<&[u8]>, text: &[u8], out: &mut [u8; image::LONGEST]) -> usize
    ensures { Starts (shown_of (part_given word.entry) text.now) out.old result out.new }
{
    fixed_form(words::part_given(word), text, out)
}
