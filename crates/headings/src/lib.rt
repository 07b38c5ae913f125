// The definitions of a dump: the marks of every code, and the faults that stand there.
#![tactic(auto)]

pub mod faults;
pub mod search;
pub mod table;
mod walk;

ghost use Rattle.std.specs.Prelude.{◌≡◌, length};
ghost use Rattle.headings.specs.Parts.{Defines};

use faults::Fault;
use ground::Reason;
use sections::Step;
use walk::Met;
use wires::marks;

// A table of marks has an entry for each character.
pub const CODES: usize = 256;

// Where the definitions end: the place in the dump with its line, and the first fault among them.
#[derive(Clone, Copy, Debug, PartialEq, Eq)]
pub struct Heading {
    pub at: usize,
    pub line: usize,
    pub fault: Option<Fault>,
}

// Reads the definitions, and leaves the marks of every code of one character in the table. Where the dump ends among them, or a token of
// them is malformed, the first fault is the dump's.
pub fn define(dump: &[u8], table: &mut [u8]) -> Result<Heading, Fault>
    requires { length table.old ≡ 256 }
    ensures { Defines dump.now result table.new }
{
    table.fill(0);
    let mut walk = walk::START;
    let mut code: &[u8] = &[];
    let mut named = 0;
    let mut fault = None;
    'tokens: loop {
        match walk.next(dump) {
            Met::Token { word, step } => {
                let text = &dump[word.from..word.to];
                match step {
                    Step::Moves { .. } => {}
                    Step::Codes => code = text,
                    Step::Names => {
                        let wire = marks::wire_of(text);
                        fault = faults::join(fault, faults::twice(named, wire), word.line);
                        named = marks::lay(1, wire, named);
                        table::declare(table, code, wire);
                    }
                    Step::Defines => {
                        fault = faults::join(fault, faults::missing(named), word.line);
                    }
                }
            }
            Met::Over => {
                return Ok(Heading {
                    at: walk.at,
                    line: walk.line,
                    fault,
                });
            }
            Met::Broken { line } => {
                return Err(faults::first(
                    fault,
                    Fault {
                        reason: Reason::DumpMalformed,
                        line,
                    },
                ));
            }
        }
    }
}
