// The levels of the wires at a sample.
ghost use Rattle.std.specs.Prelude.{◌≡◌};
ghost use Rattle.drawing.specs.Wires.{own_of, levels_of};

use levels::answers;

// The part's own SDA level.
pub fn own_in(answer: u8) -> bool
    ensures { result ≡ own_of answer }
{
    answer % 2 == 1
}

// All eight in order; `own` is the part's level as the sample before left it.
pub fn levels(own: bool, level: u8, answer: u8) -> [bool; 8]
    ensures { result ≡ levels_of own level answer }
{
    [
        answers::scl(level),
        answers::sda(level),
        answers::wp(level),
        answers::vcc(level),
        own_in(answer),
        answers::line(level, own),
        answer / 2 % 2 == 1,
        answer / 4 % 2 == 1,
    ]
}
