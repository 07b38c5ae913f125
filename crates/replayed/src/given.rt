// What the words of a command line give beside the names of files. A word that is longer than its room is read as an empty one, and so is
// no number.
use std::env::Env;
use streams::arguments;

// What a part is powered up with.
#[derive(Clone, Copy)]
pub struct Powering {
    pub part: u16,
    pub select: u8,
    pub stored: u8,
}

// The part, the select and the stored byte by the three words from a position on; what is left out is the usual part, and 0. Behind the last
// position there is no word.
pub fn powering_at<R: Env>(rt: &R, position: usize) -> Powering {
    let mut room = arguments::room();
    Powering {
        part: words::part_given(arguments::given_at(rt, position, &mut room)),
        select: words::byte_given(arguments::given_at(rt, position.saturating_add(1), &mut room)),
        stored: words::byte_given(arguments::given_at(rt, position.saturating_add(2), &mut room)),
    }
}
