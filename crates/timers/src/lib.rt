// Rules 1 and 2 of a sample: time passes, and the supply is good or low.
#![tactic(auto)]

ghost use Rattle.std.specs.Prelude.{◌≡◌};
ghost use Rattle.timers.specs.Timers.{loaded_of, timed_of, supplied_of};

use part::state::{Timers, Watchdog};

pub const WRITE_TIME: u32 = 5_000;

pub const RESET_HOLD: u32 = 200_000;

pub const LONG_WATCH: u32 = 1_400_000;

pub const MIDDLE_WATCH: u32 = 600_000;

pub const SHORT_WATCH: u32 = 200_000;

// The watchdog as a control byte's WD bits load it.
#[tactic(auto, unfolding(crate::specs::Timers::loaded_of))]
pub fn loaded(stored: u8) -> Watchdog
    ensures { result ≡ loaded_of stored }
{
    let (running, left) = match stored / 32 % 4 {
        0 => (true, LONG_WATCH),
        1 => (true, MIDDLE_WATCH),
        2 => (true, SHORT_WATCH),
        _ => (false, 0),
    };
    Watchdog { running, left }
}

// Rule 1: the timers after an elapsed time, with the control byte that loads the watchdog.
#[tactic(auto, unfolding(crate::specs::Timers::timed_of))]
pub fn timed(stored: u8, elapsed: u32, t: Timers) -> Timers
    ensures { result ≡ timed_of stored elapsed t }
{
    let t = Timers {
        write: t.write.saturating_sub(elapsed),
        ..t
    };
    if t.reset {
        if t.low {
            return t;
        }
        let hold = t.hold.saturating_sub(elapsed);
        if hold == 0 {
            return Timers {
                hold,
                reset: false,
                watchdog: loaded(stored),
                ..t
            };
        }
        return Timers { hold, ..t };
    }
    if t.watchdog.running {
        let left = t.watchdog.left.saturating_sub(elapsed);
        let watchdog = Watchdog { left, ..t.watchdog };
        if left == 0 {
            return Timers {
                hold: RESET_HOLD,
                reset: true,
                watchdog,
                ..t
            };
        }
        return Timers { watchdog, ..t };
    }
    t
}

// Rule 2: the timers as the supply leaves them.
#[tactic(auto, unfolding(crate::specs::Timers::supplied_of))]
pub fn supplied(good: bool, t: Timers) -> Timers
    ensures { result ≡ supplied_of good t }
{
    if good {
        return Timers { low: false, ..t };
    }
    Timers {
        hold: RESET_HOLD,
        reset: true,
        low: true,
        ..t
    }
}
