// Files by their names, and what is said of one that cannot be taken.
ghost use Rattle.std.specs.Prelude.{IfOk, IfSome};
ghost use Rattle.std.specs.Counts.{IsPrefixLen};

use crate::reading;
use std::fmt::Display;
use std::fs::Files;
use std::io::{Read, Write};
use std::{fs, io};

// Writes a line that names a file, and says what is wrong with it.
pub fn tell<E: Write, D: Display + Drop>(errors: &mut E, name: &[u8], wrong: D) -> io::Result<()> {
    errors.write_all(name)?;
    writeln!(errors, ": {wrong}")
}

// Opens a file. One that cannot be opened is named on `errors`, and `None` is answered.
pub fn open<R: Files, E: Write>(
    rt: &R,
    errors: &mut E,
    name: &[u8],
) -> io::Result<Option<R::File>> {
    let Ok(path) = str::from_utf8(name) else {
        tell(errors, name, "its name is not UTF-8")?;
        return Ok(None);
    };
    match fs::open(rt, path) {
        Ok(file) => Ok(Some(file)),
        Err(error) => {
            tell(errors, name, error)?;
            Ok(None)
        }
    }
}

// Reads an open file into a room as far as both go, and answers how many bytes that are. One that cannot be read is named on `errors`, and
// `None` is answered.
pub fn read_full<F: Read, E: Write>(
    file: &mut F,
    errors: &mut E,
    name: &[u8],
    room: &mut [u8],
) -> io::Result<Option<usize>>
    ensures { IfOk result (λ read. IfSome read (λ n. IsPrefixLen n room.new)) }
{
    match reading::read_full(file, room) {
        Ok(length) => Ok(Some(length)),
        Err(error) => {
            tell(errors, name, error)?;
            Ok(None)
        }
    }
}
