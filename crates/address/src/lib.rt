// The slave byte and the two address bytes; and what bits, bytes and ends say with them: an acknowledge, a rest, a choice, a pending byte.
#![tactic(auto)]

ghost use Rattle.std.specs.Prelude.{◌≡◌};
ghost use Rattle.part.specs.State.{with_chosen};
ghost use Rattle.address.specs.Talk.{pends, none_pends, acknowledged, rested, matches, address_of};
ghost use Rattle.address.specs.Address.{slave_of, high_of, low_of};

use ground::kinds::Kind;
use part::state::{BusAddress, Control, Device, Phase, Talk};

pub const REGISTER_ADDRESS: u16 = 0xffff;

// SDA released, nothing being sent.
pub fn rest(phase: Phase) -> Talk
    ensures { result ≡ rested phase }
{
    Talk {
        phase,
        high: 0,
        out: 0,
        own: true,
    }
}

// SDA pulled low for an acknowledge, with the phase after it.
pub fn acknowledge(phase: Phase) -> Talk
    ensures { result ≡ acknowledged phase }
{
    Talk {
        own: false,
        ..rest(phase)
    }
}

pub fn choose(c: Control, chosen: bool) -> Control
    ensures { result ≡ with_chosen c chosen }
{
    Control { chosen, ..c }
}

// A register byte pends.
pub fn pend(c: Control, value: u8) -> Control
    ensures { result ≡ pends c value }
{
    Control {
        pending: true,
        value,
        ..c
    }
}

// No register byte pends.
pub fn unpend(c: Control) -> Control
    ensures { result ≡ none_pends c }
{
    Control {
        pending: false,
        value: 0,
        ..c
    }
}

// Whether a slave byte names this part.
fn is_ours(select: u8, v: u8) -> bool
    ensures { result ≡ matches select v }
{
    (v / 8 == 20) & (v / 2 % 4 == select)
}

#[tactic(auto, unfolding(crate::specs::Address::slave_of))]
pub fn slave(select: u8, d: Device, v: u8) -> Device
    ensures { result ≡ slave_of select d v }
{
    let talk = if !is_ours(select, v) {
        rest(Phase::Silent)
    } else if v % 2 == 0 {
        acknowledge(Phase::High)
    } else if d.control.chosen {
        acknowledge(Phase::SendRegister)
    } else {
        acknowledge(Phase::Send)
    };
    Device { talk, ..d }
}

#[tactic(auto, unfolding(crate::specs::Address::high_of))]
pub fn high(d: Device, v: u8) -> Device
    ensures { result ≡ high_of d v }
{
    let talk = Talk {
        high: v,
        ..acknowledge(Phase::Low)
    };
    Device { talk, ..d }
}

fn address(high: u8, low: u8) -> BusAddress
    ensures { result ≡ address_of high low }
{
    BusAddress(u16::from_be_bytes([high, low]))
}

// The address is whole: it chooses the register, or sets the counter.
#[tactic(auto, unfolding(crate::specs::Address::low_of))]
pub fn low(kind: Kind, d: Device, v: u8) -> Device
    ensures { result ≡ low_of kind d v }
{
    let address = address(d.talk.high, v);
    if address.0 == REGISTER_ADDRESS {
        return Device {
            talk: acknowledge(Phase::Register),
            control: choose(d.control, true),
            ..d
        };
    }
    Device {
        talk: acknowledge(Phase::Data),
        counter: page::place_of(kind, address),
        control: choose(d.control, false),
    }
}
