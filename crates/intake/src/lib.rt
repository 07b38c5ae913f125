// Cases in the form of docs/BENCH.md as programs take them from their input: what `bench`, `show` and `trace` share.
#![tactic(auto)]

pub mod stops;

ghost use Rattle.std.specs.Prelude.{◌≡◌, ◌≤◌, length, IfOk, IfErr, Err, IsTrue};
ghost use Rattle.ground.specs.Verdict.{meant};
ghost use Rattle.intake.specs.Start.{power_by, Starts};

use form::headers::Header;
use form::{fields, headers, words};
use ground::Refusal;
use part::state::State;
use rooms::Lengths;
use std::io;
use std::io::Read;
use streams::reading;

// The room that a case has.
const ROOM: Lengths = Lengths {
    array: rooms::ARRAY,
    raw: rooms::RAW,
    elapsed: rooms::ROW,
    levels: rooms::ROW,
    answers: rooms::ROW,
};

// A whole case: its header, and its rows, each lent at just the length that the header asks for.
#[derive(Drop)]
pub struct Case<'a> {
    pub header: Header,
    pub array: &'a mut [u8],
    pub elapsed: &'a [u32],
    pub levels: &'a [u8],
    pub answers: &'a mut [u8],
    pub ghost array_length: { length array.now ≡ header.array },
    pub ghost elapsed_length: { length elapsed.now ≡ header.elapsed },
    pub ghost levels_length: { length levels.now ≡ header.levels },
    pub ghost answers_length: { length answers.now ≡ header.answers },
    pub ghost array_within_room: { header.array ≤ 16384 },
}

// Powers a part up as a header says: what its case starts from, or the refusal.
pub fn start(header: Header) -> Result<State, Refusal>
    ensures started { IfOk result (λ state. Starts header state) }
    ensures refused { IfErr result (λ refusal. power_by header ≡ meant (Err refusal)) }
{
    let up = power::power_up(
        fields::narrow16(header.part),
        fields::narrow8(header.select),
        fields::narrow8(header.stored),
    );
    up.reply?;
    Ok(headers::state_of(header, up.state))
}

// Sixteen words of a header; `None` where the input has not as many.
fn read_words<R: Read>(input: &mut R) -> io::Result<Option<[u32; 16]>> {
    let mut bytes = [0; 64];
    if !reading::fill(input, &mut bytes)? {
        return Ok(None);
    }
    let mut row = [0; 16];
    words::decode(&bytes, &mut row);
    Ok(Some(row))
}

// The header of the next case; `None` where the input ends before it does.
fn read_header<R: Read>(input: &mut R) -> io::Result<Option<Header>> {
    let Some(first) = read_words(input)? else {
        return Ok(None);
    };
    let header = headers::header_of(&first);
    if !header.long {
        return Ok(Some(header));
    }
    let further = read_words(input)?;
    Ok(further.map(|words| headers::longer(header, &words)))
}

// Fills a row of elapsed times, and answers whether the input has as many. Room for them as the input holds them is made here, so that it
// is given back before the case is served.
#[inline(never)]
fn fill_times<R: Read>(input: &mut R, elapsed: &mut [u32]) -> io::Result<bool>
    requires { length elapsed.old ≤ 65537 }
{
    let mut raw = [0; rooms::RAW];
    let raw = &mut raw[..words::WORD * elapsed.len()];
    if !reading::fill(input, raw)? {
        return Ok(false);
    }
    words::decode(raw, elapsed);
    Ok(true)
}

// Serves a case whose rows are read. Room for the answers is made here, so that it is not there while the times are read.
#[inline(never)]
fn serve_rows<E: From<io::Error>, F: FnOnce(&mut Case) -> Result<(), E>>(
    header: Header,
    array: &mut [u8],
    elapsed: &[u32],
    levels: &[u8],
    serve: F,
) -> Result<bool, E>
    requires callable { F.IsAlwaysCallable serve }
    requires array_length { length array.old ≡ header.array }
    requires elapsed_length { length elapsed.now ≡ header.elapsed }
    requires levels_length { length levels.now ≡ header.levels }
    requires array_bound { header.array ≤ 16384 }
    requires answers_bound { header.answers ≤ 65537 }
    ensures { IfOk result (λ served. IsTrue served → (case : _) × (left : _) × F.post serve case (Ok tt) left) }
{
    let mut answers = [0; rooms::ROW];
    let answers = &mut answers[..header.answers as usize];
    serve(&mut Case {
        header,
        array,
        elapsed,
        levels,
        answers,
    })?;
    Ok(true)
}

// The case whose header is read, as `read_case` says. Its rooms are large, so it has a frame of its own: where the input has no further case, none
// of them is made.
#[inline(never)]
fn read_rows<R: Read, E: From<io::Error>, F: FnOnce(&mut Case) -> Result<(), E>>(
    input: &mut R,
    header: Header,
    serve: F,
) -> Result<bool, E>
    requires { F.IsAlwaysCallable serve }
    ensures { IfOk result (λ served. IsTrue served → (case : _) × (left : _) × F.post serve case (Ok tt) left) }
{
    let asked = rooms::asked(header);
    if !rooms::fits(asked, ROOM) {
        return Ok(false);
    }
    let mut array = [0; rooms::ARRAY];
    let mut elapsed = [0; rooms::ROW];
    let mut levels = [0; rooms::ROW];
    let array = &mut array[..asked.array];
    let elapsed = &mut elapsed[..asked.elapsed];
    let levels = &mut levels[..asked.levels];
    if !(reading::fill(input, array)?
        && fill_times(input, elapsed)?
        && reading::fill(input, levels)?)
    {
        return Ok(false);
    }
    serve_rows(header, array, elapsed, levels, serve)
}

// Reads the next case and has it served; false, and nothing is served, where the input ends before the case does, or where a row of it is
// longer than docs/BENCH.md allows.
pub fn read_case<R: Read, E: From<io::Error>, F: FnOnce(&mut Case) -> Result<(), E>>(
    input: &mut R,
    serve: F,
) -> Result<bool, E>
    requires { F.IsAlwaysCallable serve }
    ensures { IfOk result (λ served. IsTrue served → (case : _) × (left : _) × F.post serve case (Ok tt) left) }
{
    let Some(header) = read_header(input)? else {
        return Ok(false);
    };
    read_rows(input, header, serve)
}
