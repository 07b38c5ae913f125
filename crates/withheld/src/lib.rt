// Why a part that hears a byte withholds its acknowledge.
#![tactic(auto)]

ghost use Rattle.std.specs.Prelude.{◌≡◌};
ghost use Rattle.withheld.specs.Withheld.{register_reason_by, data_reason, reason_of};

use ground::kinds::Kind;
use part::state::{Control, Device, Phase, Place};

// A reason. A locked page is told with the block code and the pages that it locks, both ends included.
#[derive(Clone, Copy, Debug, PartialEq, Eq)]
pub enum Why {
    WelLow,
    PageLocked { code: u8, first: u16, last: u16 },
    SecondByte,
}

// The reason at an array byte: the latch is judged before the lock.
#[tactic(auto, unfolding(crate::specs::Withheld::data_reason))]
fn data(kind: Kind, control: Control, counter: Place) -> Option<Why>
    ensures { result ≡ data_reason kind control counter }
{
    if !control.wel {
        return Some(Why::WelLow);
    }
    if !lock::locked(kind, control.stored, counter) {
        return None;
    }
    let code = lock::block_code(control.stored);
    let extent = lock::extent_of(kind, code);
    let last = extent.to - 1;
    Some(Why::PageLocked {
        code,
        first: extent.from,
        last,
    })
}

// The reason at a register byte, by whether one pends.
fn register(pending: bool) -> Option<Why>
    ensures { result ≡ register_reason_by pending }
{
    pending.then_some(Why::SecondByte)
}

// Why the acknowledge of the byte that comes next is withheld, if it is.
#[tactic(auto, unfolding(crate::specs::Withheld::reason_of))]
pub fn reason(kind: Kind, d: Device) -> Option<Why>
    ensures { result ≡ reason_of kind d }
{
    match d.talk.phase {
        Phase::Data => data(kind, d.control, d.counter),
        Phase::Register => register(d.control.pending),
        Phase::Idle
        | Phase::Silent
        | Phase::Slave
        | Phase::High
        | Phase::Low
        | Phase::Send
        | Phase::SendRegister => None,
    }
}
