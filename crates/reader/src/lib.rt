// Reading an image of any form of record, line after line.
#![tactic(auto)]

ghost use Rattle.std.specs.Prelude.{◌≡◌, ◌≤◌, length, take};
ghost use Rattle.reader.specs.Parts.{ReadsLines, ReadsInto};

use formats::RecordForm;
use forms::Says;
use ground::{Reason, Refusal, Reply};

// Reads the lines into the cells, up to the end record or the first fault. Room for a line's bytes is lent.
fn read_lines<F: RecordForm>(text: &[u8], room: &mut [u8], cells: &mut [u16]) -> Reply
    requires text_len_bound { length text.now ≤ 65536 }
    requires in_bounds { 268 ≤ length room.old }
    ensures { ReadsLines F.form_of text.now cells.old result cells.new }
{
    let mut at = 0;
    loop {
        let Some(line) = lines::next_line(text, at) else {
            return Err(Refusal {
                reason: Reason::EndMissing,
                place: text.len(),
            });
        };
        let says = F::hear(at == 0, &text[at..], line.trimmed - at, room, cells).map_err(
            |reason| Refusal { reason, place: at },
        )?;
        let next = line.feed + 1;
        match says {
            Says::Gives => at = next,
            Says::Ends if next < text.len() => {
                return Err(Refusal {
                    reason: Reason::BytesAfterEnd,
                    place: next,
                });
            }
            Says::Ends => return Ok(text.len()),
        }
    }
}

// Reads a text into the cells, and only if it is accepted their bytes into the array.
fn read_into<F: RecordForm>(text: &[u8], cells: &mut [u16], array: &mut [u8]) -> Reply
    requires text_len_bound { length text.now ≤ 65536 }
    requires array_len { length array.old ≡ length cells.old }
    ensures { ReadsInto F.form_of text.now cells.old array.old result array.new }
{
    let mut room = [0; formats::ROOM];
    let count = read_lines::<F>(text, &mut room, cells)?;
    cells::settle(cells, array);
    Ok(count)
}

// The same over as many of the cells as the array has bytes.
pub fn read_over<F: RecordForm>(text: &[u8], cells: &mut [u16], array: &mut [u8]) -> Reply
    requires text_len_bound { length text.now ≤ 65536 }
    requires array_in_bounds { length array.old ≤ length cells.old }
    ensures { ReadsInto F.form_of text.now (take (length array.old) cells.old) array.old result array.new }
{
    let size = array.len();
    read_into::<F>(text, &mut cells[..size], array)
}
