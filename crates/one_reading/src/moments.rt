// A moment heard to its end, token after token.
ghost use Rattle.dumps.specs.Defined.{vars_of};
ghost use Rattle.headings.specs.Parts.{Tabled};
ghost use Rattle.one_reading.specs.Promises.{Going};
ghost use Rattle.one_reading.specs.Parts.{Closes};

use crate::Track;
use changes::{Change, Mode};
use judging::Heard;
use pieces::{Moved, TimeLine};
use wires::{marks, values};

// The end of a moment: its levels, with the time line behind it, if there is one; the line; and what was heard.
#[derive(Clone, Copy, Debug, PartialEq, Eq)]
pub struct Closed {
    pub moved: Moved,
    pub line: usize,
    pub heard: Heard,
}

// Hears the values of a moment up to the next time line, or to the end of the dump, if nothing is wrong up to there.
pub fn hear(dump: &[u8], table: &[u8], track: Track) -> Option<Closed>
    requires tabled { Tabled (vars_of dump.now) table.now }
    requires going { Going dump.now track }
    ensures { Closes dump.now track.mark.at track.mark.level result }
{
    let mut at = track.mark.at;
    let mut line = track.line;
    let mut mode = Mode::Between;
    let mut heard = track.heard;
    let mut level = track.mark.level;
    loop {
        let Some(word) = tokens::next(dump, at, line) else {
            if lapses::at_end(mode, heard.lines, heard.given).is_some() {
                return None;
            }
            let moved = Moved { level, next: None };
            return Some(Closed { moved, line, heard });
        };
        let change = changes::change_of(dump, table, mode, true, &dump[word.from..word.to])?;
        at = word.to;
        line = word.line;
        match change {
            Change::Time(time) => {
                if lapses::at_time(heard.lines, heard.time, heard.given, time).is_some() {
                    return None;
                }
                let moved = Moved {
                    level,
                    next: Some(TimeLine { at, time }),
                };
                let heard = judging::take_time(heard, time, true);
                return Some(Closed { moved, line, heard });
            }
            Change::Value { character, marks } => {
                if lapses::at_value(character, marks).is_some() {
                    return None;
                }
                level = marks::lay(values::level_of(character), marks, level);
                heard.given = marks::lay(1, marks, heard.given);
            }
            Change::Moves(next) => mode = next,
        }
    }
}
