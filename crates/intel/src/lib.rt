// Intel's hexadecimal object format: what a line says to the cells read so far.
#![tactic(auto)]

ghost use Rattle.std.specs.Prelude.{◌≡◌, ◌+◌, ◌≤◌, true, length, get_or, take};
ghost use Rattle.hexfile.specs.Pairs.{sums_to_zero};
ghost use Rattle.intel.specs.Intel.{intel, characters_in};
ghost use Rattle.forms.specs.Parts.{HearsLine};
ghost use Rattle.intel.specs.Parts.{Forms, Judges};

use forms::Says;
use ground::Reason;
use hexfile::{pairs, sums};

pub const COLON: u8 = 0x3A;

pub const DATA: u8 = 0;

pub const END: u8 = 1;

// Where a record's data start among its bytes: after count, address and type.
const HEAD: usize = 4;

// Room for the bytes of a line: the longest record has 260 (count, address, type, 255 bytes of data, checksum), and eight are scratch.
pub const ROOM: usize = 268;

// Characters of a record that gives no data, and of the longest.
const LEAST_LENGTH: usize = 11;

const MOST_LENGTH: usize = 521;

// Characters of a record that gives so many bytes.
fn length_for(count: u8) -> usize
    ensures { result ≡ characters_in count }
{
    LEAST_LENGTH + 2 * usize::from(count)
}

// Puts the bytes of a line, the first `n` characters of a text, at the start of `room`, and answers whether it is well formed.
fn form(text: &[u8], n: usize, room: &mut [u8]) -> bool
    requires n_in_bounds { n ≤ length text.now }
    requires in_bounds { 268 ≤ length room.old }
    ensures { Forms (take n text.now) result room.new }
{
    if !(LEAST_LENGTH..=MOST_LENGTH).contains(&n) {
        return false;
    }
    if text[0] != COLON {
        return false;
    }
    pairs::decode(&text[1..], n - 1, room) && n == length_for(room[0])
}

// What the bytes of a well-formed line with a right checksum say to the cells; data that may be given are given. Two types are taken:
// data, and an end that has neither count nor address.
fn judge(bytes: &[u8], cells: &mut [u16]) -> Result<Says, Reason>
    requires bytes_len { length bytes.now ≡ 5 + get_or bytes.now 0 0 }
    requires bytes_value { sums_to_zero bytes.now ≡ true }
    ensures { Judges bytes.now cells.old result cells.new }
{
    let address = u16::from_be_bytes([bytes[1], bytes[2]]);
    match (bytes[3], bytes[0], address) {
        (DATA, _, _) => {
            let last = bytes.len() - 1;
            forms::place(usize::from(address), &bytes[HEAD..last], cells)
        }
        (END, 0, 0) => Ok(Says::Ends),
        _ => Err(Reason::RecordType),
    }
}

// What a line, the first `n` characters of a text, says to the cells; data that may be given are given. Room for its bytes is lent.
pub fn hear(text: &[u8], n: usize, room: &mut [u8], cells: &mut [u16]) -> Result<Says, Reason>
    requires n_in_bounds { n ≤ length text.now }
    requires in_bounds { 268 ≤ length room.old }
    ensures { HearsLine intel true (take n text.now) cells.old result cells.new }
{
    if !form(text, n, room) {
        return Err(Reason::LineMalformed);
    }
    let count = n / 2;
    if !sums::sums_to_zero(room, count) {
        return Err(Reason::ChecksumWrong);
    }
    judge(&room[..count], cells)
}
