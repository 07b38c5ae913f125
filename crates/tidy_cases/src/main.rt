// Runs the files that its arguments name through the function of the program `tidy`, and writes a line with each file's name before
// what is written for it. An argument that is a number names no file but the part of the files after it; before the first it is 4323.
#![tactic(auto)]

use std::fs::Files;
use std::io;
use std::io::Write;
use streams::{arguments, files};

// The text of a file through the program's function, after the line with its name.
fn show<W: Write>(part: u16, text: &[u8], name: &[u8], out: &mut W) -> io::Result<()> {
    let mut shown = [0; tidying::rooms::FORM];
    let written = tidying::fixed_form(part, text, &mut shown);
    out.write_all(b"== ")?;
    out.write_all(name)?;
    out.write_all(b"\n")?;
    out.write_all(&shown[..written])
}

// One file by its name; false where it cannot be opened or read.
fn show_file<R: Files, W: Write, E: Write>(
    rt: &R,
    part: u16,
    name: &[u8],
    out: &mut W,
    errors: &mut E,
) -> io::Result<bool> {
    let Some(mut file) = files::open(rt, errors, name)? else {
        return Ok(false);
    };
    let mut text = [0; tidying::rooms::TEXT];
    let Some(length) = files::read_full(&mut file, errors, name, &mut text)? else {
        return Ok(false);
    };
    show(part, &text[..length], name, out)?;
    Ok(true)
}

// A part's number, or the file that a word names; answers the part of the next file, or none where that file cannot be shown.
fn take<R: Files, W: Write, E: Write>(
    rt: &R,
    part: u16,
    word: &[u8],
    out: &mut W,
    errors: &mut E,
) -> io::Result<Option<u16>> {
    if words::is_number(word) {
        return Ok(Some(words::part_given(Some(word))));
    }
    let shown = show_file(rt, part, word, out, errors)?;
    Ok(shown.then_some(part))
}

// The arguments end where there is none, or one that is longer than its room.
fn main(rt: HostRuntime) -> io::Result<()> {
    let mut out = rt.stdout();
    let mut errors = rt.stderr();
    let mut part = words::LEFT_OUT;
    // Counted to a number that no run reaches: nothing says that the words end.
    for position in 1..usize::MAX {
        let mut room = arguments::room();
        let Ok(word) = arguments::word_at(&rt, position, &mut room) else {
            break;
        };
        let Some(next) = take(&rt, part, word, &mut out, &mut errors)? else {
            break;
        };
        part = next;
    }
    Ok(())
}
