// The walk over the definitions of a dump, token after token.
ghost use Rattle.std.specs.Prelude.{◌≡◌, ◌≤◌, length};
ghost use Rattle.headings.specs.Walk.{Goes};

use crate::table;
use sections::{Place, Stage, Step};
use tokens::Word;

// Where a walk stands, and what is expected there.
#[derive(Clone, Copy, Debug, PartialEq, Eq)]
pub struct Walk {
    pub at: usize,
    pub line: usize,
    pub stage: Stage,
    pub place: Place,
}

// What a walk meets: a token and what it does, the end of the definitions, or, on a line, a malformed token or the dump's end among them.
#[derive(Clone, Copy, Debug, PartialEq, Eq)]
pub enum Met {
    Token { word: Word, step: Step },
    Over,
    Broken { line: usize },
}

// Before the first token.
pub const START: Walk = Walk {
    at: 0,
    line: 0,
    stage: Stage::Start,
    place: Place::Between,
};

impl Walk {
    // Goes on by one token. It is short beside what a call would cost for each token of the definitions.
    #[inline(always)]
    pub fn next(&mut self, dump: &[u8]) -> Met
        requires at_in_bounds { self.old.at ≤ length dump.now }
        requires line_le_at { self.old.line ≤ self.old.at }
        ensures { Goes dump.now self.old result self.new }
    {
        if table::is_over(self.stage, self.place) {
            return Met::Over;
        }
        let Some(word) = tokens::next(dump, self.at, self.line) else {
            return Met::Broken {
                line: tokens::last_line(dump),
            };
        };
        let Some(step) = sections::hear(self.stage, self.place, &dump[word.from..word.to]) else {
            return Met::Broken { line: word.line };
        };
        self.at = word.to;
        self.line = word.line;
        match step {
            Step::Moves { stage, place } => {
                self.stage = stage;
                self.place = place;
            }
            Step::Codes => self.place = Place::VarName,
            Step::Names => self.place = Place::Close,
            Step::Defines => {
                self.stage = Stage::Body;
                self.place = Place::Close;
            }
        }
        Met::Token { word, step }
    }
}
