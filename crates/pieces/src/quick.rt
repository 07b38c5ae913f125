// The values of a moment at a glance, as long as they are plain.
ghost use Rattle.std.specs.Prelude.{◌≡◌, ◌≤◌, length};
ghost use Rattle.dumps.specs.Defined.{vars_of};
ghost use Rattle.headings.specs.Parts.{Tabled};
ghost use Rattle.pieces.specs.Parts.{Takes};

use wires::{marks, times};

// Where reading stopped, a moment's levels up to there, and the time of the time line that ends there, if it was reached.
#[derive(Clone, Copy, Debug, PartialEq, Eq)]
pub struct Taken {
    pub at: usize,
    pub level: u8,
    pub closed: Option<u64>,
}

// Reads plain values of a moment up to the next time line, or up to what is not so plain.
#[tactic(auto, using(crate::proofs::Plain::stopped))]
pub fn take_plain(dump: &[u8], table: &[u8], from: usize, before: u8) -> Taken
    requires tabled { Tabled (vars_of dump.now) table.now }
    requires from_in_bounds { «from» ≤ length dump.now }
    ensures { Takes dump.now «from» before result }
{
    let mut at = from;
    let mut level = before;
    loop {
        if dump.len() - at < glances::FAR {
            break;
        }
        let past = glances::past_blank(dump, at, 0);
        let begins = past.at;
        let first = dump[begins];
        if first / 2 == glances::ZERO_OR_ONE {
            let marks = glances::marks_at(dump, table, begins);
            if marks == 0 {
                break;
            }
            at = begins + 2;
            level = marks::lay(first % 2, marks, level);
        } else {
            if first != times::HASH {
                break;
            }
            let Some(seen) = glances::time_at(dump, begins) else {
                break;
            };
            return Taken {
                at: begins + seen.length,
                level,
                closed: Some(seen.time),
            };
        }
    }
    Taken {
        at,
        level,
        closed: None,
    }
}
