// A whole byte, at its eighth fall.
#![tactic(auto)]

ghost use Rattle.std.specs.Prelude.{◌≡◌};
ghost use Rattle.part.specs.State.{with_talk};
ghost use Rattle.address.specs.Talk.{rested};
ghost use Rattle.device.specs.Bytes.{taken_of, data_by, register_by, register_sent, byte_of, kept_by, expects_data, Fills};

use ground::kinds::Kind;
use part::state::{Device, Load, Phase};

// Whether an array byte is taken.
#[tactic(auto, unfolding(crate::specs::Bytes::taken_of))]
pub fn taken(kind: Kind, d: Device) -> bool
    ensures { result ≡ taken_of kind d }
{
    d.control.wel & !lock::locked(kind, d.control.stored, d.counter)
}

// The device after an array byte that is taken, or is not.
pub fn data(takes: bool, d: Device) -> Device
    ensures { result ≡ data_by takes d }
{
    if takes {
        return Device {
            talk: address::acknowledge(Phase::Data),
            counter: page::next_in_page(d.counter),
            ..d
        };
    }
    Device {
        talk: address::rest(Phase::Silent),
        ..d
    }
}

fn register(d: Device, v: u8) -> Device
    ensures { result ≡ register_by d.control.pending d v }
{
    if d.control.pending {
        return Device {
            talk: address::rest(Phase::Silent),
            control: address::unpend(d.control),
            ..d
        };
    }
    Device {
        talk: address::acknowledge(Phase::Register),
        control: address::pend(d.control, v),
        ..d
    }
}

// A byte of the array has been sent.
fn sent(d: Device) -> Device
    ensures { result ≡ with_talk d (rested Phase.Send) }
{
    Device {
        talk: address::rest(Phase::Send),
        ..d
    }
}

// The register has been sent, once.
fn register_sent(d: Device) -> Device
    ensures { result ≡ register_sent d }
{
    Device {
        talk: address::rest(Phase::Silent),
        control: address::choose(d.control, false),
        ..d
    }
}

// The device after a byte.
#[tactic(auto, unfolding(crate::specs::Bytes::byte_of))]
pub fn byte(kind: Kind, select: u8, d: Device, v: u8) -> Device
    ensures { result ≡ byte_of kind select d v }
{
    match d.talk.phase {
        Phase::Idle | Phase::Silent => d,
        Phase::Slave => address::slave(select, d, v),
        Phase::High => address::high(d, v),
        Phase::Low => address::low(kind, d, v),
        Phase::Data => data(taken(kind, d), d),
        Phase::Register => register(d, v),
        Phase::Send => sent(d),
        Phase::SendRegister => register_sent(d),
    }
}

// Whether a byte goes into the page load: array data that is taken.
#[tactic(auto, unfolding(crate::specs::Bytes::kept_of))]
pub fn fills(kind: Kind, d: Device) -> bool
    ensures { Fills kind d result }
{
    expects_data(d) && taken(kind, d)
}

// The page load after an array byte that is taken, or is not.
pub fn kept(takes: bool, d: Device, v: u8, load: Load) -> Load
    ensures { result ≡ kept_by takes d v load }
{
    if !takes {
        return load;
    }
    page::filled(load, d.counter, v)
}

// Whether a byte would be array data: no other byte touches the load.
pub fn expects_data(d: Device) -> bool
    ensures { result ≡ expects_data d.talk.phase }
{
    matches!(d.talk.phase, Phase::Data)
}
