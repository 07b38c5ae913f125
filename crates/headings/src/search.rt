// The marks of a code of any length.
ghost use Rattle.std.specs.Prelude.{◌≡◌, length};
ghost use Rattle.wires.specs.Wires.{weight_of, marks_by, marks_of};
ghost use Rattle.dumps.specs.Defined.{vars_of};
ghost use Rattle.headings.specs.Parts.{Tabled};

use crate::walk;
use crate::walk::Met;
use sections::Step;
use wires::marks;

// The marks of a code, found by reading the definitions once more.
fn search(dump: &[u8], code: &[u8]) -> u8
    ensures { result ≡ marks_of (vars_of dump.now) code.now }
{
    let mut walk = walk::START;
    let mut is_its = false;
    let mut so_far = 0;
    'tokens: while let Met::Token { word, step } = walk.next(dump) {
        let text = &dump[word.from..word.to];
        match step {
            Step::Codes => is_its = code == text,
            Step::Names => so_far = declare(is_its, so_far, text),
            Step::Moves { .. } => {}
            Step::Defines => {}
        }
    }
    so_far
}

// The marks with one more name, if the name has the code.
fn declare(is_its: bool, so_far: u8, name: &[u8]) -> u8
    ensures { result ≡ marks_by is_its (weight_of name.now) so_far }
{
    if is_its {
        marks::mark(so_far, marks::wire_of(name))
    } else {
        so_far
    }
}

// The marks of a code: from the table if it is one character, as nearly all are.
pub fn marks_of(dump: &[u8], table: &[u8], code: &[u8]) -> u8
    requires { Tabled (vars_of dump.now) table.now }
    ensures { result ≡ marks_of (vars_of dump.now) code.now }
{
    match code {
        [character] => table[usize::from(*character)],
        _ => search(dump, code),
    }
}
