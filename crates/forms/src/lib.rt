// What every form of record shares: what a line says to the cells read so far, and how its data are placed in them.
#![tactic(auto)]

ghost use Rattle.forms.specs.Parts.{Places};

use ground::Reason;

// Bytes in a row, and so in each record that the writer makes.
pub const ROW: usize = 16;

// What a sound line says: it gives data, or it ends the image.
#[derive(Clone, Copy, Debug, PartialEq, Eq)]
pub enum Says {
    Gives,
    Ends,
}

// Gives bytes to the cells from an address on, unless they lie beyond or are given already.
pub fn place(address: usize, bytes: &[u8], cells: &mut [u16]) -> Result<Says, Reason>
    ensures { Places address bytes.now cells.old result cells.new }
{
    if bytes.is_empty() {
        return Ok(Says::Gives);
    }
    if bytes.len() > cells.len().saturating_sub(address) {
        return Err(Reason::BeyondArray);
    }
    if cells::give(&mut cells[address..], bytes) {
        Ok(Says::Gives)
    } else {
        Err(Reason::GivenTwice)
    }
}
