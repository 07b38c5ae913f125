// The forms of record that images are read and written in. Reader and writer are written once, for whichever form they are called with.
#![tactic(auto)]

ghost use Rattle.std.specs.Prelude.{◌≡◌, ◌+◌, ◌≤◌, ◌<◌, length, take};
ghost use Rattle.std.proofs.lemmas.List.Edits.{sets};
ghost use Rattle.forms.specs.Form.{Form};
ghost use Rattle.forms.specs.Parts.{HearsLine};
ghost use Rattle.forms.specs.Writing.{closed, lines_length, Measured};
ghost use Rattle.intel.specs.Intel.{intel};
ghost use Rattle.formats.specs.Measured.{intel-measured};

use forms::Says;
use ground::Reason;

// Room for the bytes of a line in any form.
pub const ROOM: usize = intel::ROOM;

// A form of record: what its lines say, and how a row and the end are written.
pub trait RecordForm {
    ghost form_of: { Form };

    // What a line, the first `n` characters of a text, says to the cells; data that may be given are given. Room for its bytes is lent.
    fn hear(
        first: bool,
        text: &[u8],
        n: usize,
        room: &mut [u8],
        cells: &mut [u16],
    ) -> Result<Says, Reason>
        requires n_in_bounds { n ≤ length text.now }
        requires in_bounds { 268 ≤ length room.old }
        ensures { HearsLine form_of first (take n text.now) cells.old result cells.new };

    // Writes the line of a row over `out` from `at` on.
    fn put_row(address: usize, row: &[u8; forms::ROW], out: &mut [u8], at: usize)
        requires address_bound { address < 65536 }
        requires format_in_bounds { at + form_of.row_length ≤ length out.old }
        ensures { out.new ≡ sets out.old at (closed (form_of.row address row.now)) };

    // Writes the end line.
    fn put_end(out: &mut [u8], at: usize)
        requires { at + form_of.end_length ≤ length out.old }
        ensures { out.new ≡ sets out.old at (closed form_of.end) };

    // Characters of a row's line, its line feed included.
    fn row_length() -> usize
        ensures { result ≡ form_of.row_length };

    // Those of the lines of so many rows and of the end line.
    fn lines_length(rows: usize) -> usize
        requires { rows ≤ 65536 }
        ensures { result ≡ lines_length form_of rows };

    // The lines are as long as the form says.
    ghost measured: { Measured form_of };
}

// Intel's hexadecimal object format. It takes no type in the first line only, so that its lines say the same wherever they stand.
#[derive(Clone, Copy, Debug, PartialEq, Eq)]
pub struct Intel;

impl RecordForm for Intel {
    ghost form_of = { intel };

    ghost measured = { intel-measured };

    fn hear(
        _first: bool,
        text: &[u8],
        n: usize,
        room: &mut [u8],
        cells: &mut [u16],
    ) -> Result<Says, Reason> {
        intel::hear(text, n, room, cells)
    }

    fn put_row(address: usize, row: &[u8; forms::ROW], out: &mut [u8], at: usize) {
        intel_rows::put_record(address, row, out, at)
    }

    fn put_end(out: &mut [u8], at: usize) {
        intel_rows::put_end(out, at)
    }

    fn row_length() -> usize {
        intel_rows::ROW_LENGTH
    }

    fn lines_length(rows: usize) -> usize {
        intel_rows::ROW_LENGTH * rows + intel_rows::END_LENGTH
    }
}
