// Judges a dump: how many samples it has, or its first fault.
#![tactic(auto)]

mod gaps;

ghost use Rattle.std.specs.Prelude.{◌≡◌, true, [], ◌≤◌, length, IfSome};
ghost use Rattle.wires.specs.Wires.{all_wires};
ghost use Rattle.ground.specs.Verdict.{meant};
ghost use Rattle.tokens.specs.Tokens.{last_line};
ghost use Rattle.dumps.specs.Defined.{vars_of};
ghost use Rattle.dumps.specs.Faults.{verdict_by};
ghost use Rattle.headings.specs.Parts.{Opens, Tabled, joined_of, no_fault, noted};
ghost use Rattle.changes.specs.declared.Mode.TheVariants.{Between};
ghost use Rattle.judging.specs.Promises.{Judges};
ghost use Rattle.judging.specs.Parts.{most_counted, taken_by};
ghost use Rattle.judging.specs.Kept.{Kept, KeptOn};

use changes::{Change, Mode};
use ground::{Reason, Refusal, Reply};
use headings::faults::Fault;
use headings::{Heading, faults};
use wires::{marks, times};

// The time lines and values so far: how many time lines, the latest time, the wires that have a value, and the samples.
#[derive(Clone, Copy, Debug, PartialEq, Eq)]
pub struct Heard {
    pub lines: usize,
    pub time: u64,
    pub given: u8,
    pub samples: usize,
}

// Before the first token.
pub const UNHEARD: Heard = Heard {
    lines: 0,
    time: 0,
    given: 0,
    samples: 0,
};

// Where plain tokens end: the place, its line, and what was heard up to there.
#[derive(Clone, Copy, Debug, PartialEq, Eq)]
struct Plain {
    at: usize,
    line: usize,
    heard: Heard,
}

// The reply by the first fault, if there is one.
fn reply_of(fault: Option<Fault>, samples: usize) -> Reply
    requires { IfSome fault (λ f. f.line ≤ 9223372036854775808) }
    ensures { meant result ≡ verdict_by (noted fault []) samples }
{
    match fault {
        Some(Fault { reason, line }) => Err(Refusal {
            reason,
            place: line + 1,
        }),
        None => Ok(samples),
    }
}

// The first of a fault and one at the end of the dump, whose line is looked for only then.
fn join_end(dump: &[u8], fault: Option<Fault>, reason: Option<Reason>) -> Option<Fault>
    requires { IfSome fault (λ f. f.line ≤ length dump.now) }
    ensures value { result ≡ joined_of fault reason (last_line dump.now) }
    ensures line_in_bounds { IfSome result (λ f. f.line ≤ length dump.now) }
{
    match reason {
        Some(_) => faults::join(fault, reason, tokens::last_line(dump)),
        None => fault,
    }
}

// Passes plain tokens while all wires have values and there is no fault: values of 0 and 1, and times above the one before that make one
// sample. Whatever else comes is left.
#[tactic(auto, using(crate::proofs::PlainLaws::passed))]
fn pass_plain(dump: &[u8], table: &[u8], from: usize, on: usize, heard: Heard) -> Plain
    requires tabled { Tabled (vars_of dump.now) table.now }
    requires kept { Kept dump.now «from» on no_fault Between heard }
    requires given_value { heard.given ≡ all_wires }
    requires le_lines { 2 ≤ heard.lines }
    ensures { KeptOn dump.now «from» no_fault Between result }
{
    let mut at = from;
    let mut line = on;
    let mut lines = heard.lines;
    let mut time = heard.time;
    let mut samples = heard.samples;
    loop {
        if dump.len() - at < glances::FAR {
            break;
        }
        let past = glances::past_blank(dump, at, line);
        let begins = past.at;
        let first = dump[begins];
        if first / 2 == glances::ZERO_OR_ONE {
            if glances::marks_at(dump, table, begins) == 0 {
                break;
            }
            at = begins + 2;
            line = past.line;
        } else {
            if first != times::HASH {
                break;
            }
            let Some(seen) = glances::time_at(dump, begins) else {
                break;
            };
            let now = seen.time;
            if now <= time {
                break;
            }
            if now - time > gaps::MOST_ELAPSED {
                break;
            }
            at = begins + seen.length;
            line = past.line;
            lines += 1;
            time = now;
            samples += 1;
        }
    }
    Plain {
        at,
        line,
        heard: Heard {
            lines,
            time,
            given: heard.given,
            samples,
        },
    }
}

// Passes plain tokens where they can be passed.
fn pass(
    dump: &[u8],
    table: &[u8],
    at: usize,
    line: usize,
    fault: Option<Fault>,
    mode: Mode,
    heard: Heard,
) -> Plain
    requires tabled { Tabled (vars_of dump.now) table.now }
    requires kept { Kept dump.now at line fault mode heard }
    ensures { KeptOn dump.now at fault mode result }
{
    if matches!(mode, Mode::Between)
        && fault.is_none()
        && heard.given == marks::ALL
        && heard.lines >= 2
    {
        pass_plain(dump, table, at, line, heard)
    } else {
        Plain { at, line, heard }
    }
}

// Judges what follows the definitions.
fn judge_body(dump: &[u8], table: &[u8], heading: Heading) -> Reply
    requires { Opens dump.now heading table.now }
    ensures { Judges dump.now result }
{
    let mut at = heading.at;
    let mut line = heading.line;
    let mut fault = heading.fault;
    let mut mode = Mode::Between;
    let mut heard = UNHEARD;
    loop {
        let plain = pass(dump, table, at, line, fault, mode, heard);
        heard = plain.heard;
        let Some(word) = tokens::next(dump, plain.at, plain.line) else {
            let reason = lapses::at_end(mode, heard.lines, heard.given);
            return reply_of(join_end(dump, fault, reason), heard.samples);
        };
        at = word.to;
        line = word.line;
        let token = &dump[word.from..word.to];
        let Some(change) = changes::change_of(dump, table, mode, heard.lines > 0, token) else {
            return reply_of(faults::join(fault, Some(Reason::DumpMalformed), line), 0);
        };
        match change {
            Change::Time(time) => {
                let reason = lapses::at_time(heard.lines, heard.time, heard.given, time);
                fault = faults::join(fault, reason, line);
                heard = take_time(heard, time, fault.is_none());
            }
            Change::Value { character, marks } => {
                fault = faults::join(fault, lapses::at_value(character, marks), line);
                heard.given = marks::lay(1, marks, heard.given);
            }
            Change::Moves(next) => mode = next,
        }
    }
}

// One time line more; its samples are counted as long as there is no fault.
pub fn take_time(heard: Heard, time: u64, sound: bool) -> Heard
    requires lines_bound { heard.lines ≤ 9223372036854775808 }
    requires samples_le_most_counted { sound ≡ true → heard.samples ≤ most_counted }
    ensures { result ≡ taken_by sound heard time }
{
    let samples = gaps::counted(sound, heard.lines > 0, heard.time, time, heard.samples);
    Heard {
        lines: heard.lines + 1,
        time,
        given: heard.given,
        samples,
    }
}

// Judges a dump.
pub fn judge(dump: &[u8]) -> Reply
    ensures { Judges dump.now result }
{
    let mut table = [0u8; headings::CODES];
    match headings::define(dump, &mut table) {
        Ok(heading) => judge_body(dump, &table, heading),
        Err(fault) => reply_of(Some(fault), 0),
    }
}
