// Bytes of a reader.
ghost use Rattle.std.specs.Prelude.{IfOk};
ghost use Rattle.std.specs.Counts.{IsPrefixLen};

use std::io;
use std::io::Read;

// Reads until the room is full or the reader at its end, and answers how many bytes it put at the start of the room. A read that fails ends
// it with that error.
pub fn read_full<R: Read>(reader: &mut R, room: &mut [u8]) -> io::Result<usize>
    ensures { IfOk result (λ n. IsPrefixLen n room.new) }
{
    // A `while`: a read may give less than was asked for.
    let mut done = 0;
    while done < room.len() {
        let n = reader.read(&mut room[done..])?;
        if n == 0 {
            break;
        }
        done += n;
    }
    Ok(done)
}

// Fills a row from a reader, and answers whether there was enough of it.
pub fn fill<R: Read>(reader: &mut R, row: &mut [u8]) -> io::Result<bool> {
    let got = read_full(reader, row)?;
    Ok(got == row.len())
}
