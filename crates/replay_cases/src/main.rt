// Runs the cases that its arguments name through the function of the program `replay`, and writes a line with each dump's name before what
// is written for it. A case is five words: dump, image, part, select and stored byte.
#![tactic(auto)]

ghost use Rattle.std.specs.Prelude.{◌+◌, ◌≤◌};

use replayed::given;
use std::env::Env;
use std::fs::Files;
use std::io;
use std::io::Write;
use streams::arguments;

// One case from a position on; false where a word of it is not there, or a file of it cannot be read.
fn take_case<R: Env + Files, W: Write, E: Write>(
    rt: &R,
    out: &mut W,
    errors: &mut E,
    position: usize,
) -> io::Result<bool>
    requires { position + 4 ≤ 18446744073709551615 }
{
    if !arguments::is_given(rt, position + 4) {
        return Ok(false);
    }
    let mut dump_room = arguments::room();
    let mut image_room = arguments::room();
    let dump = arguments::given_at(rt, position, &mut dump_room).unwrap_or(b"");
    let image = arguments::given_at(rt, position + 1, &mut image_room).unwrap_or(b"");
    out.write_all(b"== ")?;
    out.write_all(dump)?;
    out.write_all(b"\n")?;
    let powering = given::powering_at(rt, position + 2);
    replayed::replay(rt, out, errors, dump, image, powering)
}

fn main(rt: HostRuntime) -> io::Result<()> {
    let mut out = rt.stdout();
    let mut errors = rt.stderr();
    // Counted to a number that no run reaches: nothing says that the words end.
    for case in 0..usize::MAX / 8 {
        if !take_case(&rt, &mut out, &mut errors, 5 * case + 1)? {
            break;
        }
    }
    Ok(())
}
