// Words put into fields: too wide a word counts as the field's largest number, and one word leaves a field alone.
ghost use Rattle.std.specs.Prelude.{◌≡◌, min};
ghost use Rattle.form.specs.Fields.{given, timers_of, device_of, wire_put, put_in_of};

use part::state::{Chip, Control, Device, Frame, Place, State, Timers, Watchdog, Wire};

// The word that leaves a field as it is.
const KEEP: u32 = 0xFFFF_FFFF;

// The eight words that are put into a state that is powered up, each where there is one.
#[derive(Clone, Copy)]
pub struct Preset {
    pub counter: Option<u32>,
    pub bits: Option<u32>,
    pub write: Option<u32>,
    pub hold: Option<u32>,
    pub watchdog: Option<u32>,
    pub part: Option<u32>,
    pub select: Option<u32>,
    pub stored: Option<u32>,
}

// What a word of a header puts into its field: nothing, if it leaves the field as it is.
pub(crate) fn given(word: u32) -> Option<u32>
    ensures { result ≡ given word }
{
    if word == KEEP { None } else { Some(word) }
}

// This and the next stay two: a generic one would need a trait for a type's largest number, which std has not.
pub fn narrow8(word: u32) -> u8
    ensures { result ≡ min word 255 }
{
    u8::try_from(word).unwrap_or(u8::MAX)
}

pub fn narrow16(word: u32) -> u16
    ensures { result ≡ min word 65535 }
{
    u16::try_from(word).unwrap_or(u16::MAX)
}

#[tactic(auto, using(crate::proofs::Put::put_whole), unfolding(crate::specs::Fields::timers_of))]
fn preset_timers(p: Preset, t: Timers) -> Timers
    ensures { result ≡ timers_of p t }
{
    Timers {
        write: p.write.unwrap_or(t.write),
        hold: p.hold.unwrap_or(t.hold),
        watchdog: Watchdog {
            left: p.watchdog.unwrap_or(t.watchdog.left),
            ..t.watchdog
        },
        ..t
    }
}

fn preset_device(p: Preset, d: Device) -> Device
    ensures { result ≡ device_of p d }
{
    Device {
        counter: Place(p.counter.map_or(d.counter.0, narrow16)),
        control: Control {
            stored: p.stored.map_or(d.control.stored, narrow8),
            ..d.control
        },
        ..d
    }
}

fn preset_wire(p: Preset, w: Wire) -> Wire
    ensures { result ≡ wire_put p w }
{
    Wire {
        frame: Frame {
            bits: p.bits.map_or(w.frame.bits, narrow8),
            ..w.frame
        },
        ..w
    }
}

// The state with the eight words put in.
pub fn put_in(p: Preset, s: State) -> State
    ensures { result ≡ put_in_of p s }
{
    State {
        chip: Chip {
            part: p.part.map_or(s.chip.part, narrow16),
            select: p.select.map_or(s.chip.select, narrow8),
        },
        timers: preset_timers(p, s.timers),
        wire: preset_wire(p, s.wire),
        device: preset_device(p, s.device),
        ..s
    }
}
