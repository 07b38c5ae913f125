// From the names of a dump and an image to standard output: what the programs `replay` and `replay_cases` share. All that is written there
// is made by proved functions of `replaying` and `texts`.
#![tactic(auto)]

pub mod given;

ghost use Rattle.std.specs.Prelude.{◌≡◌, length};
ghost use Rattle.ground.specs.Kind.{kind_of};
ghost use Rattle.ground.specs.Numbers.{large_size};
ghost use Rattle.disagreements.specs.Promises.{Stands};

use given::Powering;
use ground::{Refusal, kinds};
use std::fs::Files;
use std::io;
use std::io::{Read, Write};
use streams::files;

// Writes a refusal's line.
fn put_refusal<W: Write>(out: &mut W, refusal: Refusal) -> io::Result<()> {
    let mut line = [0; texts::refusals::LONGEST];
    let length = texts::refusals::put_refusal(refusal.reason.into(), refusal.place, &mut line);
    out.write_all(&line[..length])
}

// Replays a dump piece after piece from where it may be replayed, and writes the lines of each.
fn put_places<W: Write>(
    out: &mut W,
    dump: &[u8],
    from: disagreements::Stand,
    array: &mut [u8],
) -> io::Result<()>
    requires { Stands dump.now «from» array.old }
{
    let mut elapsed = [0; replaying::rooms::ROW];
    let mut levels = [0; replaying::rooms::ROW];
    let mut answers = [0; replaying::rooms::ROW];
    let mut text = [0; replaying::rooms::TEXT];
    // A `loop`: each piece says where the next one begins.
    let mut stand = from;
    loop {
        let told = replaying::tell(
            dump,
            stand,
            array,
            &mut elapsed,
            &mut levels,
            &mut answers,
            &mut text,
        );
        if told.count == 0 {
            return Ok(());
        }
        let length = told.length;
        out.write_all(&text[..length])?;
        stand = told.stand;
    }
}

// Writes the report of a dump on a part that holds an image, or the line of its refusal.
fn put_report<W: Write>(
    out: &mut W,
    powering: Powering,
    image: &[u8],
    dump: &[u8],
    array: &mut [u8],
) -> io::Result<()>
    requires { length array.old ≡ (kind_of powering.part).size }
{
    let opened = replaying::start(
        powering.part,
        powering.select,
        powering.stored,
        image,
        dump,
        array,
    );
    match opened.reply {
        Ok(_) => put_places(out, dump, opened.stand, array),
        Err(refusal) => put_refusal(out, refusal),
    }
}

// The same within room for the largest array.
fn put_within<W: Write>(
    out: &mut W,
    powering: Powering,
    image: &[u8],
    dump: &[u8],
    array: &mut [u8],
) -> io::Result<()>
    requires { length array.old ≡ large_size }
{
    let kind = kinds::kind_of(powering.part);
    let size = kind.size as usize;
    put_report(out, powering, image, dump, &mut array[..size])
}

// Reads the dump's file into a room, and writes its report; false where it cannot be read, or fills the room and so is too long.
fn put_dump<F: Read, W: Write, E: Write>(
    out: &mut W,
    errors: &mut E,
    powering: Powering,
    image: &[u8],
    name: &[u8],
    file: &mut F,
    room: &mut [u8],
) -> io::Result<bool> {
    let Some(length) = files::read_full(file, errors, name, room)? else {
        return Ok(false);
    };
    if length == room.len() {
        files::tell(errors, name, "longer than 4194304 bytes")?;
        return Ok(false);
    }
    let mut array = [0; replaying::rooms::ARRAY];
    put_within(out, powering, image, &room[..length], &mut array)?;
    Ok(true)
}

// The same with its room, which is by far the largest. Beside what the others do with it, the proof did not close: it is too long a list.
fn put_in_room<F: Read, W: Write, E: Write>(
    out: &mut W,
    errors: &mut E,
    powering: Powering,
    image: &[u8],
    name: &[u8],
    file: &mut F,
) -> io::Result<bool> {
    let mut room = [0; replaying::rooms::DUMP];
    put_dump(out, errors, powering, image, name, file, &mut room)
}

// Replays the dump of one file on a part with the image of another; false where one cannot be opened or read, which is named on `errors`.
pub fn replay<R: Files, W: Write, E: Write>(
    rt: &R,
    out: &mut W,
    errors: &mut E,
    dump: &[u8],
    image: &[u8],
    powering: Powering,
) -> io::Result<bool> {
    let Some(mut dump_file) = files::open(rt, errors, dump)? else {
        return Ok(false);
    };
    let Some(mut image_file) = files::open(rt, errors, image)? else {
        return Ok(false);
    };
    let mut text = [0; tidying::rooms::TEXT];
    let Some(length) = files::read_full(&mut image_file, errors, image, &mut text)? else {
        return Ok(false);
    };
    put_in_room(out, errors, powering, &text[..length], dump, &mut dump_file)
}
