// The ranges of a state's fields.
ghost use Rattle.std.specs.Prelude.{◌≡◌};
ghost use Rattle.refusals.specs.Refusals.{storable, timers_in_range, in_range};

use ground::kinds;
use part::state::{State, Timers};

pub const MOST_SELECT: u8 = 3;

pub const MOST_BITS: u8 = 8;

pub fn is_storable(stored: u8) -> bool
    ensures { result ≡ storable stored }
{
    stored / 2 % 4 == 0
}

fn times_in_range(t: Timers) -> bool
    ensures { result ≡ timers_in_range t }
{
    (t.write <= timers::WRITE_TIME)
        & ((t.hold <= timers::RESET_HOLD) & (t.watchdog.left <= timers::LONG_WATCH))
}

#[tactic(auto, unfolding(crate::specs::Refusals::in_range))]
pub fn in_range(s: State) -> bool
    ensures { result ≡ in_range s }
{
    let kind = kinds::kind_of(s.chip.part);
    (s.device.counter.0 < kind.size)
        & ((s.wire.frame.bits <= MOST_BITS)
            & (times_in_range(s.timers)
                & ((0 < kind.size)
                    & ((s.chip.select <= MOST_SELECT) & is_storable(s.device.control.stored)))))
}
