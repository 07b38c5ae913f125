// Intel's hexadecimal object format: the record of a row and the end record, written as lines.
#![tactic(auto)]

ghost use Rattle.std.specs.Prelude.{◌≡◌, [], ◌+◌, ◌≤◌, ◌<◌, length};
ghost use Rattle.std.proofs.lemmas.List.Edits.{sets};
ghost use Rattle.forms.specs.Writing.{closed};
ghost use Rattle.intel.specs.Intel.{data_type, end_type, record_line};
ghost use Rattle.intel_rows.specs.Parts.{tail_of, PutsHead};

use hexfile::{pairs, sums};

// Bytes of the line of a row, and of the end record.
pub const ROW_LENGTH: usize = 44;

pub const END_LENGTH: usize = 12;

// Those of a record before its data.
const HEAD_LENGTH: usize = 9;

// Writes a record as far as its data over `out` from `at` on, and answers what its bytes add up to.
fn put_head(count: u8, address: usize, kind: u8, out: &mut [u8], at: usize) -> u8
    requires address_bound { address < 65536 }
    requires at_in_bounds { at + 9 ≤ length out.old }
    ensures { PutsHead count address kind out.old at result out.new }
{
    let [high, low] = (address as u16).to_be_bytes();
    let head = [count, high, low, kind];
    out[at] = intel::COLON;
    pairs::encode(&head, out, at + 1);
    sums::sum(0, &head)
}

// Writes what follows a record's data, whose bytes so far add up to `sum`.
fn put_tail(sum: u8, out: &mut [u8], at: usize)
    requires { at + 3 ≤ length out.old }
    ensures { out.new ≡ sets out.old at (tail_of sum) }
{
    pairs::encode(&[sum.wrapping_neg()], out, at);
    out[at + 2] = lines::LINE_FEED;
}

// Writes a row's record as a line over `out` from `at` on. Its digits are made from a copy, which no store to `out` can change, so
// that compilers make all of them at once; the copy comes after a store, so that they leave the test for a blank row out of it.
pub fn put_record(address: usize, row: &[u8; forms::ROW], out: &mut [u8], at: usize)
    requires address_bound { address < 65536 }
    requires at_in_bounds { at + 44 ≤ length out.old }
    ensures { out.new ≡ sets out.old at (closed (record_line address data_type row.now)) }
{
    let sum = put_head(forms::ROW as u8, address, intel::DATA, out, at);
    let bytes = *row;
    let from = at + HEAD_LENGTH;
    pairs::encode(&bytes, out, from);
    put_tail(sums::sum(sum, &bytes), out, from + 2 * forms::ROW);
}

// Writes the end record.
pub fn put_end(out: &mut [u8], at: usize)
    requires { at + 12 ≤ length out.old }
    ensures { out.new ≡ sets out.old at (closed (record_line 0 end_type [])) }
{
    let sum = put_head(0, 0, intel::END, out, at);
    put_tail(sum, out, at + HEAD_LENGTH);
}
