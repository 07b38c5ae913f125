// Plain tokens, of which nearly all of a dump is made: passed without a fault, and their samples filled in.
ghost use Rattle.std.specs.Prelude.{◌≡◌, ◌≤◌, length};
ghost use Rattle.wires.specs.Wires.{all_wires};
ghost use Rattle.ground.specs.Numbers.{most_elapsed};
ghost use Rattle.dumps.specs.Defined.{vars_of};
ghost use Rattle.headings.specs.Parts.{Tabled};
ghost use Rattle.one_reading.specs.Promises.{Going};
ghost use Rattle.one_reading.specs.Parts.{PassesOn};

use crate::Track;
use judging::Heard;
use pieces::Mark;
use wires::{marks, times};

// How many samples are filled in, and where plain tokens end.
#[derive(Clone, Copy, Debug, PartialEq, Eq)]
pub struct Passed {
    pub count: usize,
    pub track: Track,
}

// Passes plain tokens while all wires have values: values of 0 and 1, and times above the one before that make one sample, as long as the
// rows have room for it. Whatever else comes is left.
#[tactic(auto, using(crate::proofs::Running::passes_on))]
pub fn pass(
    dump: &[u8],
    table: &[u8],
    from: Track,
    count: usize,
    elapsed: &mut [u32],
    levels: &mut [u8],
) -> Passed
    requires tabled { Tabled (vars_of dump.now) table.now }
    requires going { Going dump.now «from» }
    requires from_bound { «from».mark.left ≤ most_elapsed }
    requires from_value { «from».heard.given ≡ all_wires }
    requires bound { 2 ≤ «from».heard.lines }
    requires count_in_bounds { count ≤ length levels.old }
    requires elapsed_len { length elapsed.old ≡ length levels.old }
    ensures { PassesOn dump.now «from» count elapsed.old levels.old result elapsed.new levels.new }
{
    let mut at = from.mark.at;
    let mut line = from.line;
    let mut lines = from.heard.lines;
    let mut time = from.mark.time;
    let mut samples = from.heard.samples;
    let mut left = from.mark.left;
    let mut level = from.mark.level;
    let mut i = count;
    loop {
        if dump.len() - at < glances::FAR {
            break;
        }
        let past = glances::past_blank(dump, at, line);
        let begins = past.at;
        let first = dump[begins];
        if first / 2 == glances::ZERO_OR_ONE {
            let marks = glances::marks_at(dump, table, begins);
            if marks == 0 {
                break;
            }
            at = begins + 2;
            line = past.line;
            level = marks::lay(first % 2, marks, level);
        } else {
            if first != times::HASH {
                break;
            }
            if i >= levels.len() {
                break;
            }
            let Some(seen) = glances::time_at(dump, begins) else {
                break;
            };
            let now = seen.time;
            if now <= time {
                break;
            }
            if now - time > pieces::MOST_ELAPSED {
                break;
            }
            elapsed[i] = left as u32;
            levels[i] = level;
            i += 1;
            at = begins + seen.length;
            line = past.line;
            lines += 1;
            samples += 1;
            left = now - time;
            time = now;
        }
    }
    Passed {
        count: i,
        track: Track {
            mark: Mark {
                at,
                time,
                left,
                level,
            },
            line,
            heard: Heard {
                lines,
                time,
                given: from.heard.given,
                samples,
            },
        },
    }
}
