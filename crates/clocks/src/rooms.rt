// Time while no timer ends, and the answer byte.
ghost use Rattle.std.specs.Prelude.{◌≡◌, ◌-◌, ◌≤◌, ◌<◌, length};
ghost use Rattle.timers.specs.Timers.{loaded_of};
ghost use Rattle.clocks.specs.Rooms.{Room, Begins, left_by, timers_at, base_of, Tells};

use ground::cases;
use levels::answers;
use part::state::{Timers, Watchdog};

// Where no timer runs any time would do; this one outlasts most captures.
const LONG: u32 = 4_000_000_000;

// The write time and the watchdog as they stand where `all` begins, a time in which neither ends. Whether it runs and what is left are
// two fields, as in the state.
#[derive(Clone, Copy)]
pub struct Times {
    pub write: u32,
    pub left: u32,
    pub all: u32,
    pub running: bool,
}

// A time in which no timer ends.
fn room_of(write: u32, running: bool, left: u32) -> u32
    ensures { Room write running left result }
{
    match (running, 0 < write) {
        (true, true) => left.min(write),
        (true, false) => left,
        (false, true) => write,
        (false, false) => LONG,
    }
}

pub fn times_of(write: u32, dog: Watchdog) -> Times
    ensures { Begins write dog result }
{
    Times {
        write,
        left: dog.left,
        all: room_of(write, dog.running, dog.left),
        running: dog.running,
    }
}

// The times that begin at a start, with a room left of those that began before: the watchdog is loaded.
pub fn started(t: Times, room: u32, stored: u8) -> Times
    ensures { Begins (t.write - (t.all - room)) (loaded_of stored) result }
{
    let spent = t.all.saturating_sub(room);
    times_of(t.write.saturating_sub(spent), timers::loaded(stored))
}

// What is left of the watchdog's time.
fn left_of(running: bool, left: u32, spent: u32) -> u32
    ensures { result ≡ left_by running left spent }
{
    if running {
        left.saturating_sub(spent)
    } else {
        left
    }
}

// The timers with a room left.
pub fn timers_at(hold: u32, t: Times, room: u32) -> Timers
    ensures { result ≡ timers_at hold t room }
{
    let spent = t.all.saturating_sub(room);
    Timers {
        write: t.write.saturating_sub(spent),
        hold,
        reset: false,
        low: false,
        watchdog: Watchdog {
            running: t.running,
            left: left_of(t.running, t.left, spent),
        },
    }
}

// The answer byte but for the part's own SDA.
pub fn base_of(high: bool, reset: bool, write: u32) -> u8
    ensures worth { result ≡ base_of high reset write }
    ensures small { result ≤ 6 }
{
    let pin = cases::worth(answers::pin(high, reset), 2);
    pin + cases::worth(0 < write, 4)
}

// The answer byte of the sample `i` goes into the row. Answers which sample comes next.
pub fn tell(row: &mut [u8], i: usize, own: bool, base: u8) -> usize
    requires i_in_bounds { i < length row.old }
    requires base_bound { base ≤ 6 }
    ensures { Tells row.old i own base result row.new }
{
    row[i] = u8::from(own) + base;
    i + 1
}
