// A dump judged and filled in one reading, as long as nothing is wrong with it: then its samples are there piece after piece before all of
// it is judged, and where something is wrong that is found in the end. What is wrong is left to those who judge a dump whole.
#![tactic(auto)]

mod moments;
mod quick;

ghost use Rattle.std.specs.Prelude.{◌≡◌, ◌≤◌, length};
ghost use Rattle.ground.specs.Numbers.{most_elapsed};
ghost use Rattle.dumps.specs.Defined.{vars_of};
ghost use Rattle.headings.specs.Parts.{Defines, Opens, Tabled, no_fault};
ghost use Rattle.changes.specs.declared.Mode.TheVariants.{Between};
ghost use Rattle.judging.specs.Parts.{nothing_heard};
ghost use Rattle.judging.specs.Kept.{Kept};
ghost use Rattle.one_reading.specs.Promises.{Going, Sound, Starts, Reads};
ghost use Rattle.one_reading.specs.Parts.{StartsFrom, PassesOn};

use changes::{Change, Mode};
use headings::Heading;
use headings::faults::Fault;
use judging::Heard;
use pieces::Mark;
use quick::Passed;
use wires::marks;

// Where a dump is left without a fault before its end: the mark of the next sample, its line, and what was heard up to there.
#[derive(Clone, Copy, Debug, PartialEq, Eq)]
pub struct Track {
    pub mark: Mark,
    pub line: usize,
    pub heard: Heard,
}

// How many samples were filled in, and where the dump is left, if it is not over.
#[derive(Clone, Copy, Debug, PartialEq, Eq)]
pub struct Went {
    pub count: usize,
    pub track: Option<Track>,
}

// Reads up to the first time line behind the definitions, if nothing is wrong up to there. A walk of its own, and so is `moments::hear`:
// beside what `pieces` keeps over the same tokens it keeps what was heard.
fn first_time(dump: &[u8], table: &[u8], from: usize, on: usize) -> Option<Track>
    requires tabled { Tabled (vars_of dump.now) table.now }
    requires kept { Kept dump.now «from» on no_fault Between nothing_heard }
    ensures { StartsFrom dump.now «from» result }
{
    let mut at = from;
    let mut line = on;
    let mut mode = Mode::Between;
    loop {
        let word = tokens::next(dump, at, line)?;
        let change = changes::change_of(dump, table, mode, false, &dump[word.from..word.to])?;
        at = word.to;
        line = word.line;
        match change {
            Change::Time(time) => {
                let mark = Mark {
                    at,
                    time,
                    left: 0,
                    level: 0,
                };
                let heard = judging::take_time(judging::UNHEARD, time, true);
                return Some(Track { mark, line, heard });
            }
            Change::Moves(next) => mode = next,
            Change::Value { .. } => return None,
        }
    }
}

// The start of a dump behind its definitions, if nothing is wrong with them.
#[tactic(auto, using(crate::proofs::Beginning::starting))]
fn behind(dump: &[u8], table: &[u8], heading: Heading) -> Option<Track>
    requires { Opens dump.now heading table.now }
    ensures { Starts dump.now result }
{
    if heading.fault.is_some() {
        return None;
    }
    first_time(dump, table, heading.at, heading.line)
}

// The start of a dump as its definitions were read, if nothing is wrong with them.
pub fn start(dump: &[u8], table: &[u8], defined: Result<Heading, Fault>) -> Option<Track>
    requires { Defines dump.now defined table.now }
    ensures { Starts dump.now result }
{
    match defined {
        Ok(heading) => behind(dump, table, heading),
        Err(_) => None,
    }
}

// Passes plain tokens where they can be passed.
fn pass(
    dump: &[u8],
    table: &[u8],
    track: Track,
    count: usize,
    elapsed: &mut [u32],
    levels: &mut [u8],
) -> Passed
    requires tabled { Tabled (vars_of dump.now) table.now }
    requires going { Going dump.now track }
    requires left_le_most_elapsed { track.mark.left ≤ most_elapsed }
    requires count_in_bounds { count ≤ length levels.old }
    requires elapsed_len { length elapsed.old ≡ length levels.old }
    ensures { PassesOn dump.now track count elapsed.old levels.old result elapsed.new levels.new }
{
    if track.heard.given == marks::ALL {
        if track.heard.lines >= 2 {
            return quick::pass(dump, table, track, count, elapsed, levels);
        }
    }
    Passed { count, track }
}

// Fills rows of one length from a track on, as far as there are samples; nothing comes of it where something is wrong.
pub fn fill(
    dump: &[u8],
    table: &[u8],
    from: Option<Track>,
    elapsed: &mut [u32],
    levels: &mut [u8],
) -> Option<Went>
    requires tabled { Tabled (vars_of dump.now) table.now }
    requires sound { Sound dump.now «from» }
    requires elapsed_len { length elapsed.old ≡ length levels.old }
    ensures { Reads dump.now «from» elapsed.old levels.old result elapsed.new levels.new }
{
    let mut track = from;
    // A `while`: plain tokens move the index by as many samples as they fill.
    let mut i = 0;
    while i < levels.len() {
        let Some(here) = track else {
            return Some(Went { count: i, track });
        };
        if here.mark.left > pieces::MOST_ELAPSED {
            elapsed[i] = pieces::MOST_ELAPSED as u32;
            levels[i] = here.mark.level;
            let left = here.mark.left - pieces::MOST_ELAPSED;
            let mark = Mark { left, ..here.mark };
            track = Some(Track { mark, ..here });
            i += 1;
        } else {
            let passed = pass(dump, table, here, i, elapsed, levels);
            let count = passed.count;
            let open = passed.track;
            if count >= levels.len() {
                return Some(Went {
                    count,
                    track: Some(open),
                });
            }
            let closed = moments::hear(dump, table, open)?;
            elapsed[count] = open.mark.left as u32;
            levels[count] = closed.moved.level;
            let behind = pieces::behind(open.mark.time, closed.moved);
            track = behind.map(|mark| Track {
                mark,
                line: closed.line,
                heard: closed.heard,
            });
            i = count + 1;
        }
    }
    Some(Went { count: i, track })
}
