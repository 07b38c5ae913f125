// Level bytes, and the answer byte of a state.
ghost use Rattle.std.specs.Prelude.{◌≡◌, ◌&&◌};
ghost use Rattle.levels.specs.Level.{scl_of, sda_of, wp_of, vcc_of, pin_by, answer_of};

use ground::{cases, kinds};
use part::state::State;

// Each level bit has a name of its own, as document 01 gives it; one function for all four would want the bit at every call.
pub fn scl(level: u8) -> bool
    ensures { result ≡ scl_of level }
{
    level % 2 == 1
}

pub fn wp(level: u8) -> bool
    ensures { result ≡ wp_of level }
{
    level / 4 % 2 == 1
}

pub fn vcc(level: u8) -> bool
    ensures { result ≡ vcc_of level }
{
    level / 8 % 2 == 1
}

// SDA from outside.
pub fn sda(level: u8) -> bool
    ensures { result ≡ sda_of level }
{
    level / 2 % 2 == 1
}

// The SDA line: low if either side pulls it low.
pub fn line(level: u8, own: bool) -> bool
    ensures { result ≡ (sda_of level && own) }
{
    sda(level) & own
}

// The RESET pin.
pub fn pin(high: bool, reset: bool) -> bool
    ensures { result ≡ pin_by high reset }
{
    reset == high
}

// The answer byte of a state.
#[tactic(auto, unfolding(crate::specs::Level::answer_of))]
pub fn answer(s: State) -> u8
    ensures { result ≡ answer_of s }
{
    let kind = kinds::kind_of(s.chip.part);
    let own = cases::worth(s.device.talk.own, 1);
    let reset = cases::worth(pin(kind.high, s.timers.reset), 2);
    let writes = cases::worth(0 < s.timers.write, 4);
    own + reset + writes
}
