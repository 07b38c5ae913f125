// Words of the command line.
ghost use Rattle.std.specs.Prelude.{◌≡◌, ◌≤◌, length, IfOk, IfSome};

use std::env::{Env, FillError};

// The longest word that is taken.
pub const LONGEST: usize = 4096;

// Room for a word: zeros.
pub fn room() -> [u8; LONGEST]
    ensures { 4096 ≡ length result }
{
    [0; LONGEST]
}

// The word at a position, within a room; else that there is none, or that it is longer than the room.
pub fn word_at<'a, R: Env>(
    rt: &R,
    position: usize,
    room: &'a mut [u8],
) -> Result<&'a [u8], FillError>
    ensures { IfOk result (λ word. length word.now ≤ length room.old) }
{
    let length = rt.arg(position, room)?;
    Ok(&room[..length])
}

// The same, where a word that is longer than its room counts as an empty one.
pub fn given_at<'a, R: Env>(rt: &R, position: usize, room: &'a mut [u8]) -> Option<&'a [u8]>
    ensures { IfSome result (λ word. length word.now ≤ length room.old) }
{
    match word_at(rt, position, room) {
        Ok(word) => Some(word),
        Err(FillError::TooLong) => Some(b""),
        Err(FillError::NotPresent) => None,
    }
}

// Whether there is a word at a position.
pub fn is_given<R: Env>(rt: &R, position: usize) -> bool {
    given_at(rt, position, &mut room()).is_some()
}
