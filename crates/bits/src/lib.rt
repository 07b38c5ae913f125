// A bit below the eighth, and the ninth.
#![tactic(auto)]

ghost use Rattle.std.specs.Prelude.{◌≡◌};
ghost use Rattle.ground.specs.Cases.{highest};
ghost use Rattle.part.specs.State.{with_talk};
ghost use Rattle.address.specs.Talk.{released, sending, sends_in, shifted_of};
ghost use Rattle.bits.specs.Bits.{next_bit, bit_of, fetch_register, answered_by, ninth_of};

use ground::kinds::Kind;
use part::state::{Device, Phase, Talk};

fn release(t: Talk) -> Talk
    ensures { result ≡ released t }
{
    Talk { own: true, ..t }
}

// Whether a byte is being sent in a phase.
pub fn sends(phase: Phase) -> bool
    ensures { result ≡ sends_in phase }
{
    matches!(phase, Phase::Send | Phase::SendRegister)
}

// The byte being sent, one bit on.
pub fn shifted(out: u8) -> u8
    ensures { result ≡ shifted_of out }
{
    out.wrapping_mul(2)
}

// The bit of it that goes out.
pub fn top(out: u8) -> bool
    ensures { result ≡ highest out }
{
    out / 128 % 2 == 1
}

// A byte is being sent: its highest bit is out.
fn send(phase: Phase, v: u8) -> Talk
    ensures { result ≡ sending phase v }
{
    Talk {
        phase,
        high: 0,
        out: v,
        own: top(v),
    }
}

fn next_bit(phase: Phase, d: Device) -> Device
    ensures { result ≡ next_bit phase d }
{
    Device {
        talk: send(phase, shifted(d.talk.out)),
        ..d
    }
}

// The device after a bit below the eighth.
#[tactic(auto, unfolding(crate::specs::Bits::bit_of))]
pub fn bit(d: Device) -> Device
    ensures { result ≡ bit_of d }
{
    match d.talk.phase {
        phase @ (Phase::Send | Phase::SendRegister) => next_bit(phase, d),
        _ => d,
    }
}

fn heard(d: Device) -> Device
    ensures { result ≡ with_talk d (released d.talk) }
{
    Device {
        talk: release(d.talk),
        ..d
    }
}

fn send_array(kind: Kind, array: &[u8], b: bool, d: Device) -> Device
    ensures { result ≡ answered_by b kind array.now d }
{
    if b {
        return Device {
            talk: address::rest(Phase::Silent),
            ..d
        };
    }
    Device {
        talk: send(Phase::Send, page::fetched(array, d.counter)),
        counter: page::next_in_array(kind, d.counter),
        ..d
    }
}

fn send_register(d: Device) -> Device
    ensures { result ≡ fetch_register d }
{
    Device {
        talk: send(Phase::SendRegister, control::reads(d.control)),
        ..d
    }
}

// The device after a ninth bit.
#[tactic(auto, unfolding(crate::specs::Bits::ninth_of))]
pub fn ninth(kind: Kind, array: &[u8], b: bool, d: Device) -> Device
    ensures { result ≡ ninth_of kind array.now b d }
{
    match d.talk.phase {
        Phase::Idle | Phase::Silent => d,
        Phase::Slave | Phase::High | Phase::Low | Phase::Data | Phase::Register => heard(d),
        Phase::Send => send_array(kind, array, b, d),
        Phase::SendRegister => send_register(d),
    }
}
