// Reads one case in the form of docs/BENCH.md on standard input and writes it as a value change dump
// (IEEE 1364), with what the part answered beside the capture; or one line with its refusal.
#![tactic(auto)]

use drawing::Drawn;
use intake::Case;
use intake::stops::{Stop, put_end};
use std::io;
use std::io::Write;

// One sample: its lines.
fn draw_one<W: Write>(
    out: &mut W,
    drawn: Drawn,
    elapsed: u32,
    level: u8,
    answer: u8,
) -> io::Result<Drawn> {
    let mut room = [0; drawing::ROOM];
    let put = drawing::put_sample(drawn, elapsed, level, answer, &mut room);
    let length = put.length;
    out.write_all(&room[..length])?;
    Ok(put.drawn)
}

// The samples of one replay, one after the other, behind what is drawn already.
fn draw<W: Write>(out: &mut W, drawn: Drawn, case: &Case) -> io::Result<Drawn> {
    let mut drawn = drawn;
    let rows = case
        .elapsed
        .iter()
        .zip(case.levels)
        .zip(case.answers.iter());
    for ((elapsed, level), answer) in rows {
        drawn = draw_one(out, drawn, *elapsed, *level, *answer)?;
    }
    Ok(drawn)
}

// So many replays, 0 counting as 1, each from the state and array that the one before left, and drawn behind it. The
// rows are refused the first time or never: a run leaves every field of the state within its range
// (ranges/proofs/InRange, run-fit).
fn trace_case<W: Write>(out: &mut W, case: &mut Case) -> Result<(), Stop> {
    let state = intake::start(case.header)?;
    let mut last = twin::replay(state, case.elapsed, case.levels, case.array, case.answers);
    last.reply?;
    out.write_all(&drawing::header())?;
    let mut drawn = draw(out, drawing::nothing(state.device.talk.own), case)?;
    for _ in 1..case.header.times {
        last = twin::replay(
            last.state,
            case.elapsed,
            case.levels,
            case.array,
            case.answers,
        );
        drawn = draw(out, drawn, case)?;
    }
    Ok(())
}

fn main(rt: HostRuntime) -> io::Result<()> {
    let mut out = rt.stdout();
    let served = intake::read_case(&mut rt.stdin(), |case| trace_case(&mut out, case));
    put_end(&mut out, served)
}
