// The samples of a dump, piece after piece: rows of times and level bytes as a replay takes them.
#![tactic(auto)]

mod quick;

ghost use Rattle.std.specs.Prelude.{◌≡◌, ◌≤◌, length};
ghost use Rattle.dumps.specs.Defined.{vars_of};
ghost use Rattle.headings.specs.Parts.{Tabled};
ghost use Rattle.pieces.specs.Parts.{behind_by, FillsRoom, Moves, StartsAt};
ghost use Rattle.pieces.specs.Promises.{Begins, Fills};

use changes::{Change, Mode};
use wires::{marks, values};

// The most samples of a piece.
pub const MOST: usize = limits::MOST_SAMPLES;

// The most that a sample may say has passed.
pub const MOST_ELAPSED: u64 = limits::MOST_ELAPSED as u64;

// Where a dump is left that is not over: behind the time line of the next moment, whose time it has, with what is left of the time up to it
// and the levels before it.
#[derive(Clone, Copy, Debug, PartialEq, Eq)]
pub struct Mark {
    pub at: usize,
    pub time: u64,
    pub left: u64,
    pub level: u8,
}

// How many samples were filled in, and where the dump is left, if it is not over.
#[derive(Clone, Copy, Debug, PartialEq, Eq)]
pub struct Filled {
    pub count: usize,
    pub mark: Option<Mark>,
}

// A time line, by where it ends.
#[derive(Clone, Copy, Debug, PartialEq, Eq)]
pub struct TimeLine {
    pub at: usize,
    pub time: u64,
}

// A moment's levels, and the time line behind it, if there is one.
#[derive(Clone, Copy, Debug, PartialEq, Eq)]
pub struct Moved {
    pub level: u8,
    pub next: Option<TimeLine>,
}

// The first time line behind the definitions, if there is one. One walk with `one_reading`, here and in `take_rest`, would be no plainer:
// that one keeps what was heard besides.
fn first_time(dump: &[u8], table: &[u8], from: usize, line: usize) -> Option<Mark>
    requires tabled { Tabled (vars_of dump.now) table.now }
    requires from_in_bounds { «from» ≤ length dump.now }
    requires line_le_from { line ≤ «from» }
    ensures { StartsAt dump.now «from» result }
{
    let mut at = from;
    let mut on = line;
    let mut mode = Mode::Between;
    loop {
        let word = tokens::next(dump, at, on)?;
        let change = changes::change_of(dump, table, mode, false, &dump[word.from..word.to])?;
        at = word.to;
        on = word.line;
        match change {
            Change::Time(time) => {
                return Some(Mark {
                    at,
                    time,
                    left: 0,
                    level: 0,
                });
            }
            Change::Moves(next) => mode = next,
            Change::Value { .. } => return None,
        }
    }
}

// Where the samples of a dump begin, if it has any.
pub fn begin(dump: &[u8]) -> Option<Mark>
    ensures { Begins dump.now result }
{
    let mut table = [0u8; headings::CODES];
    match headings::define(dump, &mut table) {
        Ok(heading) => first_time(dump, &table, heading.at, heading.line),
        Err(_) => None,
    }
}

// Reads the values of a moment up to the next time line.
fn take_values(dump: &[u8], table: &[u8], from: usize, level: u8) -> Moved
    requires { Tabled (vars_of dump.now) table.now }
    ensures { Moves dump.now «from» level result }
{
    let taken = quick::take_plain(dump, table, from.min(dump.len()), level);
    match taken.closed {
        Some(time) => Moved {
            level: taken.level,
            next: Some(TimeLine { at: taken.at, time }),
        },
        None => take_rest(dump, table, taken.at, taken.level),
    }
}

// The same, token after token.
fn take_rest(dump: &[u8], table: &[u8], from: usize, before: u8) -> Moved
    requires tabled { Tabled (vars_of dump.now) table.now }
    requires from_in_bounds { «from» ≤ length dump.now }
    ensures { Moves dump.now «from» before result }
{
    let mut at = from;
    let mut on = 0;
    let mut mode = Mode::Between;
    let mut level = before;
    loop {
        let Some(word) = tokens::next(dump, at, on) else {
            return Moved { level, next: None };
        };
        let Some(change) = changes::change_of(dump, table, mode, true, &dump[word.from..word.to])
        else {
            return Moved { level, next: None };
        };
        at = word.to;
        on = word.line;
        match change {
            Change::Time(time) => {
                return Moved {
                    level,
                    next: Some(TimeLine { at, time }),
                };
            }
            Change::Value { character, marks } => {
                level = marks::lay(values::level_of(character), marks, level);
            }
            Change::Moves(next) => mode = next,
        }
    }
}

// The mark behind a moment.
pub fn behind(time: u64, moved: Moved) -> Option<Mark>
    ensures { result ≡ behind_by time moved.level moved.next }
{
    let next = moved.next?;
    Some(Mark {
        at: next.at,
        time: next.time,
        left: next.time.saturating_sub(time),
        level: moved.level,
    })
}

// Fills rows of one length, as far as there are samples.
fn fill_room(
    dump: &[u8],
    table: &[u8],
    from: Option<Mark>,
    elapsed: &mut [u32],
    levels: &mut [u8],
) -> Filled
    requires tabled { Tabled (vars_of dump.now) table.now }
    requires elapsed_len { length elapsed.old ≡ length levels.old }
    ensures { FillsRoom dump.now «from» elapsed.old levels.old result elapsed.new levels.new }
{
    let mut mark = from;
    for (i, level) in levels.iter_mut().enumerate() {
        let Some(here) = mark else {
            return Filled { count: i, mark };
        };
        if here.left > MOST_ELAPSED {
            elapsed[i] = MOST_ELAPSED as u32;
            *level = here.level;
            mark = Some(Mark {
                left: here.left - MOST_ELAPSED,
                ..here
            });
        } else {
            let moved = take_values(dump, table, here.at, here.level);
            elapsed[i] = here.left as u32;
            *level = moved.level;
            mark = behind(here.time, moved);
        }
    }
    Filled {
        count: levels.len(),
        mark,
    }
}

// Fills the rows with the samples from a mark on: as many as are left, as the shorter row holds, and as a replay takes.
pub fn fill(dump: &[u8], mark: Option<Mark>, elapsed: &mut [u32], levels: &mut [u8]) -> Filled
    ensures { Fills dump.now mark elapsed.old levels.old result elapsed.new levels.new }
{
    let mut table = [0u8; headings::CODES];
    let _ = headings::define(dump, &mut table);
    let room = elapsed.len().min(levels.len()).min(MOST);
    fill_room(
        dump,
        &table,
        mark,
        &mut elapsed[..room],
        &mut levels[..room],
    )
}
