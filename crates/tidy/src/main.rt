// `tidy [PART]` reads the image of a part on standard input and writes its fixed form to standard output, or one line with its refusal.
#![tactic(auto)]

use std::io;
use std::io::Write;
use streams::{arguments, reading};

// A word that is longer than its room is read as an empty one, and so is no number.
fn main(rt: HostRuntime) -> io::Result<()> {
    let mut room = arguments::room();
    let part = arguments::given_at(&rt, 1, &mut room);
    let mut text = [0; tidying::rooms::TEXT];
    let length = reading::read_full(&mut rt.stdin(), &mut text)?;
    let mut out = [0; tidying::rooms::FORM];
    let written = tidying::by_word(part, &text[..length], &mut out);
    rt.stdout().write_all(&out[..written])
}
