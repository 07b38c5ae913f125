// `replay DUMP IMAGE [PART [SELECT [STORED]]]` replays a value change dump on the twin of a part that holds an image, and writes the place
// of each sample with SCL high where the twin pulls SDA low and the dump shows it high, one to a line; or one line with its refusal.
#![tactic(auto)]

use replayed::given;
use std::io;
use std::io::Write;
use streams::arguments;

// A word that is longer than its room is read as an empty one, and so is no number and names no file.
fn main(rt: HostRuntime) -> io::Result<()> {
    let mut dump_room = arguments::room();
    let mut image_room = arguments::room();
    let dump = arguments::given_at(&rt, 1, &mut dump_room);
    let image = arguments::given_at(&rt, 2, &mut image_room);
    let mut errors = rt.stderr();
    let (Some(dump), Some(image)) = (dump, image) else {
        return errors.write_all(b"usage: replay DUMP IMAGE [PART [SELECT [STORED]]]\n");
    };
    let _ = replayed::replay(
        &rt,
        &mut rt.stdout(),
        &mut errors,
        dump,
        image,
        given::powering_at(&rt, 3),
    )?;
    Ok(())
}
