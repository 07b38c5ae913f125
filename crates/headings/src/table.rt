// The marks of the codes of one character.
ghost use Rattle.std.specs.Prelude.{◌≡◌, ◌&&◌, length};
ghost use Rattle.sections.specs.Sections.{is_body};
ghost use Rattle.dumps.specs.Reading.{is_between};
ghost use Rattle.headings.specs.Parts.{declared_in};

use sections::{Place, Stage};
use wires::marks;

// One more wire for a code; longer codes have no place here.
pub fn declare(table: &mut [u8], code: &[u8], wire: u8)
    requires { length table.old ≡ 256 }
    ensures { table.new ≡ declared_in table.old code.now wire }
{
    // By its length: behind the `else` of an `if let [character]` the proof knows nothing of the code.
    if code.len() == 1 {
        let index = usize::from(code[0]);
        table[index] = marks::mark(table[index], wire);
    }
}

// Whether the definitions are over.
pub fn is_over(stage: Stage, place: Place) -> bool
    ensures { result ≡ is_body stage && is_between place }
{
    stage == Stage::Body && place == Place::Between
}
