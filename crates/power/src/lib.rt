// Power-up, and what a caller asks of a part beside replaying it.
#![tactic(auto)]

ghost use Rattle.std.specs.Prelude.{◌≡◌};
ghost use Rattle.power.specs.Power.{powered_up};
ghost use Rattle.power.specs.Promises.{PowersUp, ReadsRegister};

use ground::{Reply, kinds};
use part::state::{Chip, Control, Device, Lines, Phase, Place, State, Timers, Watchdog, Wire};
use refusals::verdicts;

// A reply with the state beside it, and not in it: a refused power-up has a state too.
#[derive(Clone, Copy)]
pub struct Replayed {
    pub reply: Reply,
    pub state: State,
}

#[tactic(auto, unfolding(crate::specs::Power::powered_up))]
fn powered_up(part: u16, select: u8, stored: u8) -> State
    ensures { result ≡ powered_up part select stored }
{
    State {
        chip: Chip { part, select },
        timers: Timers {
            write: 0,
            hold: timers::RESET_HOLD,
            reset: true,
            low: true,
            watchdog: Watchdog {
                running: false,
                left: 0,
            },
        },
        wire: Wire {
            lines: Lines {
                scl: true,
                sda: true,
            },
            frame: wire::clean(),
        },
        device: Device {
            talk: address::rest(Phase::Idle),
            counter: Place(0),
            control: Control {
                stored,
                wel: false,
                rwel: false,
                chosen: false,
                pending: false,
                value: 0,
            },
        },
        load: page::empty(),
    }
}

// The part at power-up, or refusal 1, 2 or 3 with the state of part 4323, select 0, stored byte 00h.
pub fn power_up(part: u16, select: u8, stored: u8) -> Replayed
    ensures { PowersUp part select stored result }
{
    let reply = verdicts::power(part, select, stored);
    let state = match reply {
        Ok(_) => powered_up(part, select, stored),
        Err(_) => powered_up(kinds::X4323, 0, 0),
    };
    Replayed { reply, state }
}

// The control register as it reads, latches included.
pub fn register(state: State) -> u8
    ensures { ReadsRegister state result }
{
    control::reads(state.device.control)
}
