// Cells, one for each address: the byte that a file gives there, or `NOT_GIVEN`; and rows of bytes that a file need not give.
#![tactic(auto)]

ghost use Rattle.std.specs.Prelude.{◌≡◌, ◌≤◌, length, ltb};
ghost use Rattle.cells.specs.Cells.{byte_by, settled_of, blank_of};
ghost use Rattle.cells.specs.Promises.{GivesTo};

// A number beyond the bytes and not an Option: 16,384 cells are tested and settled several at a time, each in two bytes.
pub const NOT_GIVEN: u16 = 256;

// What a byte holds that no file gives.
pub const BLANK: u8 = 0xFF;

// Gives the bytes to the first cells, and answers whether none of these was given before.
pub fn give(cells: &mut [u16], bytes: &[u8]) -> bool
    requires { length bytes.now ≤ length cells.old }
    ensures { GivesTo cells.old bytes.now result cells.new }
{
    let mut fresh = true;
    for (i, &byte) in bytes.iter().enumerate() {
        fresh &= cells[i] == NOT_GIVEN;
        cells[i] = u16::from(byte);
    }
    fresh
}

// The byte of a cell: `BLANK` where it is not given, and that is the largest byte, so that one test does.
fn byte_of(cell: u16) -> u8
    ensures { result ≡ byte_by (ltb cell 256) cell }
{
    cell.min(u16::from(BLANK)) as u8
}

// Puts the bytes of the cells into an array of their number.
pub fn settle(cells: &[u16], array: &mut [u8])
    requires { length array.old ≡ length cells.now }
    ensures { array.new ≡ settled_of cells.now }
{
    for (i, &cell) in cells.iter().enumerate() {
        array[i] = byte_of(cell);
    }
}

// Whether the bytes are all `BLANK`. Every one is looked at: without a way out, compilers test many at once.
pub fn blank(bytes: &[u8]) -> bool
    ensures { result ≡ blank_of bytes.now }
{
    bytes.iter().fold(true, |all, &byte| all & (byte == BLANK))
}
