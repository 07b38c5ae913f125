// The sixteen words that open a case, and the sixteen more of a long one.
ghost use Rattle.std.specs.Prelude.{◌≡◌};
ghost use Rattle.form.specs.Header.{header_of, longer_of, state_of};

use crate::fields::{Preset, given};
use crate::further::Further;
use crate::{fields, further};
use part::state::State;

// Bit 31 of the array's length: a long case has it set.
const LONG: u32 = 0x8000_0000;

// The number of the first word that a long case has beyond a short one; a header's are counted from 0.
const FIRST: usize = 16;

// What a case asks for: the power-up, how often its rows are replayed, whether it is a long one, how
// long its rows are, and the words that are put into the powered-up state.
#[derive(Clone, Copy)]
pub struct Header {
    pub part: u32,
    pub select: u32,
    pub stored: u32,
    pub times: u32,
    pub long: bool,
    pub array: u32,
    pub elapsed: u32,
    pub levels: u32,
    pub answers: u32,
    pub preset: Preset,
    pub further: Further,
}

pub fn header_of(words: &[u32; 16]) -> Header
    ensures { result ≡ header_of words.now }
{
    Header {
        part: words[0],
        select: words[1],
        stored: words[2],
        times: words[3],
        long: words[4] >= LONG,
        array: words[4] % LONG,
        elapsed: words[5],
        levels: words[6],
        answers: words[7],
        preset: Preset {
            counter: given(words[8]),
            bits: given(words[9]),
            write: given(words[10]),
            hold: given(words[11]),
            watchdog: given(words[12]),
            part: given(words[13]),
            select: given(words[14]),
            stored: given(words[15]),
        },
        further: Further {
            phase: None,
            flags: None,
            pending: None,
            loaded: None,
        },
    }
}

// The header of a long case, with the words that follow the first sixteen.
pub fn longer(header: Header, words: &[u32; 16]) -> Header
    ensures { result ≡ longer_of header words.now }
{
    let further = Further {
        phase: given(words[23 - FIRST]),
        flags: given(words[24 - FIRST]),
        pending: given(words[25 - FIRST]),
        loaded: given(words[26 - FIRST]),
    };
    Header { further, ..header }
}

// A state with all words of the header put in: what a case starts from, where the state is powered up.
#[tactic(auto, unfolding(crate::specs::Header::state_of))]
pub fn state_of(header: Header, state: State) -> State
    ensures { result ≡ state_of header state }
{
    further::put_further(header.further, fields::put_in(header.preset, state))
}
