// Writing an image of any form of record, row after row.
#![tactic(auto)]

ghost use Rattle.std.specs.Prelude.{◌≡◌, ◌+◌, ◌≤◌, ◌<◌, length};
ghost use Rattle.forms.specs.Writing.{most_length};
ghost use Rattle.writer.specs.Parts.{PutsRow, PutsRows};

use formats::RecordForm;
use forms::ROW;

// Writes a row that is not blank, and answers where the next line starts.
fn put_row<F: RecordForm>(address: usize, row: &[u8; ROW], out: &mut [u8], at: usize) -> usize
    requires address_bound { address < 65536 }
    requires format_in_bounds { at + F.form_of.row_length ≤ length out.old }
    ensures { PutsRow F.form_of address row.now out.old at result out.new }
{
    if cells::blank(row) {
        return at;
    }
    F::put_row(address, row, out, at);
    at + F::row_length()
}

// Writes the rows of an array and the end record, and answers the length.
pub fn put_rows<F: RecordForm>(array: &[u8], out: &mut [u8]) -> usize
    requires array_len_bound { length array.now ≤ 65536 }
    requires array_in_bounds { most_length F.form_of (length array.now) ≤ length out.old }
    ensures { PutsRows F.form_of array.now out.old result out.new }
{
    let (rows, _) = array.as_chunks::<ROW>();
    let mut at = 0;
    for (index, row) in rows.iter().enumerate() {
        at = put_row::<F>(index * ROW, row, out, at);
    }
    F::put_end(out, at);
    at + F::lines_length(0)
}
