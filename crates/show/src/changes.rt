// Which bytes of the array changed.
use std::io;
use std::io::Write;
use texts::{numbers, rows};

// The line of a byte that changed. It is laid out whole: each write goes to the system by itself.
fn put_change<W: Write>(out: &mut W, place: usize, old: u8, new: u8) -> io::Result<()> {
    let mut line = *b"array: .... .. -> ..\n";
    line[7..11].copy_from_slice(&numbers::address((place % 65_536) as u16));
    line[12..14].copy_from_slice(&numbers::byte(old));
    line[18..20].copy_from_slice(&numbers::byte(new));
    out.write_all(&line)
}

// A line for each byte that changed.
pub fn put_changes<W: Write>(out: &mut W, before: &[u8], after: &[u8]) -> io::Result<()> {
    let mut at = rows::next_difference(before, after, 0);
    if before.len() <= at || after.len() <= at {
        return out.write_all(b"array: nothing changed\n");
    }
    // A `while`: the next difference says where to go on.
    while at < before.len() && at < after.len() {
        put_change(out, at, before[at], after[at])?;
        at = rows::next_difference(before, after, at + 1);
    }
    Ok(())
}
