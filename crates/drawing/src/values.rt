// The values of the wires that changed, a line for each.
ghost use Rattle.std.specs.Prelude.{◌+◌, ◌≤◌, ◌≡◌, length};
ghost use Rattle.texts.specs.Laying.{Lays};
ghost use Rattle.drawing.specs.Wires.{first_code};
ghost use Rattle.drawing.specs.Drawing.{figure_of, value_by, values_of};

// The code of the first wire; those of the others follow it.
const FIRST_CODE: u8 = b'a';

fn figure(level: bool) -> u8
    ensures { result ≡ figure_of level }
{
    if level { b'1' } else { b'0' }
}

// Writes the line of one wire over `out` from `at` on, unless its level stays, and answers where it ends.
fn put_value(stays: bool, code: u8, level: bool, out: &mut [u8], at: usize) -> usize
    requires { at + 3 ≤ length out.old }
    ensures lays { Lays (value_by stays code level) out.old at result out.new }
    ensures upper_bound { result ≤ at + 3 }
{
    if stays {
        return at;
    }
    out[at] = figure(level);
    out[at + 1] = code;
    out[at + 2] = lines::LINE_FEED;
    at + 3
}

// Writes those of all eight, by their levels before and after; where there was no sample before, each has one.
pub fn put(begun: bool, before: [bool; 8], after: [bool; 8], out: &mut [u8], from: usize) -> usize
    requires { from + 24 ≤ length out.old }
    ensures lays { Lays (values_of begun first_code before after) out.old from result out.new }
    ensures upper_bound { result ≤ from + 24 }
{
    let mut at = from;
    for (i, &level) in after.iter().enumerate() {
        let stays = begun & (before[i] == level);
        at = put_value(stays, FIRST_CODE + i as u8, level, out, at);
    }
    at
}
