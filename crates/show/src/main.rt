// Reads one case in the form of docs/BENCH.md on standard input and prints it transfer by transfer,
// with the bytes of the array that changed; or one line with its refusal.
#![tactic(auto)]

mod changes;
mod entry;
mod figures;
mod printing;
mod reasons;

use figures::Decimal;
use intake::Case;
use intake::stops::{Stop, put_end};
use part::state::State;
use refusals::verdicts;
use std::io;
use std::io::Write;

// One replay of several: its transfers, then what it changed in the array; the state that it left is handed back. Its rooms are large, so it
// has a frame of its own: a refused case needs none of them.
#[inline(never)]
fn show_once<W: Write>(
    out: &mut W,
    case: &mut Case,
    turn: u32,
    state: State,
) -> Result<State, Stop> {
    let mut room = [0; rooms::ARRAY];
    let before = &mut room[..case.array.len()];
    before.copy_from_slice(case.array);
    let mut entries = [0; rooms::ENTRIES];
    let listed = transfers::list(state, case.elapsed, case.levels, case.array, &mut entries);
    let count = listed.reply?;
    let times = case.header.times;
    if times > 1 {
        let turn = Decimal(u64::from(turn));
        writeln!(out, "replay {turn} of {}", Decimal(u64::from(times)))?;
    }
    printing::put_list(out, &entries, count)?;
    changes::put_changes(out, before, case.array)?;
    Ok(listed.state)
}

// So many replays, each from the state and array that the one before left; 0 counts as 1. The rows are
// refused before the first or never: a run leaves every field of the state within its range
// (ranges/proofs/InRange, run-fit). The list asks for no answer row; where the case has one of another
// length than its levels, a replay refuses it, and so it is refused here.
fn show_case<W: Write>(out: &mut W, case: &mut Case) -> Result<(), Stop> {
    let mut state = intake::start(case.header)?;
    if case.answers.len() != case.levels.len() {
        verdicts::judge(state, case.elapsed, case.levels, case.array, case.answers)?;
    }
    for turn in 1..=case.header.times.max(1) {
        state = show_once(out, case, turn, state)?;
    }
    Ok(())
}

fn main(rt: HostRuntime) -> io::Result<()> {
    let mut out = rt.stdout();
    let served = intake::read_case(&mut rt.stdin(), |case| show_case(&mut out, case));
    put_end(&mut out, served)
}
