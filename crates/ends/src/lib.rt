// A start, a stop, and reset.
#![tactic(auto)]

ghost use Rattle.std.specs.Prelude.{◌≡◌};
ghost use Rattle.ends.specs.Ends.{dropped, started_of, keeps_for_stop, cuts_off, control_left, stopped_of, ended_of};

use control::Order;
use part::state::{Control, Device, Phase};

// No choice, no pending byte.
fn drop_all(c: Control) -> Control
    ensures { result ≡ dropped c }
{
    Control {
        pending: false,
        value: 0,
        chosen: false,
        ..c
    }
}

// The device after a start, which nobody hears while a write cycle runs.
#[tactic(auto, unfolding(crate::specs::Ends::started_of))]
pub fn start(writing: bool, d: Device) -> Device
    ensures { result ≡ started_of writing d }
{
    let phase = if writing { Phase::Silent } else { Phase::Slave };
    Device {
        talk: address::rest(phase),
        control: address::unpend(d.control),
        ..d
    }
}

// Whether a byte of this phase is kept for a stop to act on.
fn keeps_for_stop(phase: Phase) -> bool
    ensures { result ≡ keeps_for_stop phase }
{
    matches!(phase, Phase::Data | Phase::Register)
}

// Whether a stop with so many committed bits cuts off such a byte.
pub fn cuts_off(phase: Phase, bits: u8) -> bool
    ensures { result ≡ cuts_off phase bits }
{
    keeps_for_stop(phase) & (0 < bits)
}

// The control register as a stop finds it, which may have cut a byte off.
pub fn left(cut: bool, c: Control) -> Control
    ensures { result ≡ control_left cut c }
{
    if cut { address::unpend(c) } else { c }
}

// The device after a stop that carries out an order.
#[tactic(auto, unfolding(crate::specs::Ends::stopped_of))]
pub fn stop(order: Order, d: Device) -> Device
    ensures { result ≡ stopped_of order d }
{
    Device {
        talk: address::rest(Phase::Idle),
        control: drop_all(control::carry_out(order, d.control)),
        ..d
    }
}

// The device while reset is active: a literal like that of `stop`, for a definition of its own.
#[tactic(auto, unfolding(crate::specs::Ends::ended_of))]
pub fn end(d: Device) -> Device
    ensures { result ≡ ended_of d }
{
    Device {
        talk: address::rest(Phase::Idle),
        control: drop_all(d.control),
        ..d
    }
}
