// What a sample can say, as entries: each a number with the place of its sample, laid over a row as
// far as it has room.
#![tactic(auto)]

pub mod tags;

ghost use Rattle.std.specs.Prelude.{◌≡◌, ◌<◌};
ghost use Rattle.entries.specs.Entries.{role_of, reason_note, pages_told, packed_of, number_of, told_of, edge_by, Says};

use ground::cases;
use part::state::Phase;
use withheld::Why;

// What a sample can say: a start with the bits of a byte that it cuts off; a stop with such bits,
// whether it cuts a byte off that a stop acts on, and whether a load or a pending register byte is
// dropped by that; a byte at its eighth fall with the phase that it met and why it is not
// acknowledged, if a part that hears it does not; the ninth bit as it stood on the line with the
// part's own level there (the part acknowledges where its own is low); and where a write cycle or
// reset begins or ends.
#[derive(Clone, Copy)]
pub enum Entry {
    Start(u8),
    Stop {
        bits: u8,
        cut: bool,
        load: bool,
        register: bool,
    },
    Byte(Phase, u8, Option<Why>),
    Ninth {
        line: bool,
        own: bool,
    },
    CycleBegins,
    CycleEnds,
    ResetBegins,
    ResetEnds,
}

// The role of a byte by the phase that it met. No `From` here and below: neither side is this crate's type.
fn role(phase: Phase) -> u8
    ensures { result ≡ role_of phase }
{
    match phase {
        Phase::Slave => tags::SLAVE,
        Phase::High => tags::HIGH,
        Phase::Low => tags::LOW,
        Phase::Data => tags::DATA,
        Phase::Register => tags::REGISTER,
        Phase::Send => tags::SENT,
        Phase::SendRegister => tags::REGISTER_SENT,
        Phase::Idle | Phase::Silent => tags::UNHEARD,
    }
}

// A reason as a note. A block code is below 8, so that nothing of it is lost.
fn reason_note(why: Option<Why>) -> u8
    ensures { result ≡ reason_note why }
{
    match why {
        None => tags::NO_REASON,
        Some(Why::WelLow) => tags::WEL_LOW,
        Some(Why::SecondByte) => tags::SECOND_BYTE,
        Some(Why::PageLocked { code, .. }) => tags::LOCKED + code % 8,
    }
}

// The pages that a reason tells, the first lowest. No part has more than 256, so that nothing of them
// is lost (withheld/proofs/Pages, narrow-told).
fn pages_told(why: Option<Why>) -> u16
    ensures { result ≡ pages_told why }
{
    match why {
        Some(Why::PageLocked { first, last, .. }) => last % 256 * 256 + first % 256,
        Some(Why::WelLow | Why::SecondByte) | None => 0,
    }
}

// Place, pages, note, tag and value as one number. An accepted capture has at most 65,536 samples, so
// that nothing of a place is lost.
fn packed(place: usize, pages: u16, note: u8, tag: u8, value: u8) -> u64
    ensures { result ≡ packed_of place pages note tag value }
{
    let at = (place % tags::PLACES) as u64;
    at * tags::PLACE
        + u64::from(pages) * tags::PAGES
        + u64::from(note) * tags::NOTE
        + u64::from(tag) * tags::TAG
        + u64::from(value)
}

// An entry and its place as one number: a row of these is what `transfers::list` is documented to lay.
#[tactic(auto, unfolding(crate::specs::Entries::number_of))]
fn number_of(place: usize, entry: Entry) -> u64
    ensures { result ≡ number_of (record { place = place; entry = entry }) }
{
    match entry {
        Entry::Start(bits) => packed(place, 0, 0, tags::START, bits),
        Entry::Stop {
            bits,
            cut,
            load,
            register,
        } => packed(
            place,
            0,
            cases::worth(cut, tags::CUT)
                + cases::worth(load, tags::LOAD_DROPPED)
                + cases::worth(register, tags::REGISTER_DROPPED),
            tags::STOP,
            bits,
        ),
        Entry::Byte(phase, value, why) => packed(
            place,
            pages_told(why),
            reason_note(why),
            role(phase),
            value,
        ),
        Entry::Ninth { line, own } => packed(
            place,
            0,
            0,
            tags::NINTH,
            cases::worth(line, 1) + cases::worth(own, 2),
        ),
        Entry::CycleBegins => packed(place, 0, 0, tags::CYCLE_BEGINS, 0),
        Entry::CycleEnds => packed(place, 0, 0, tags::CYCLE_ENDS, 0),
        Entry::ResetBegins => packed(place, 0, 0, tags::RESET_BEGINS, 0),
        Entry::ResetEnds => packed(place, 0, 0, tags::RESET_ENDS, 0),
    }
}

// What is said where something began or ended, by whether it was and is.
pub fn edge(was: bool, is: bool, begins: Entry, ends: Entry) -> Option<Entry>
    ensures { result ≡ edge_by was is begins ends }
{
    match (was, is) {
        (false, true) => Some(begins),
        (true, false) => Some(ends),
        _ => None,
    }
}

// Lays what is said over the row at a place, if there is room, and answers the place after it.
pub fn put(told: Option<Entry>, place: usize, entries: &mut [u64], at: usize) -> usize
    requires { at < 18446744073709551615 }
    ensures { Says 1 place (told_of told) at entries.old result entries.new }
{
    let Some(entry) = told else {
        return at;
    };
    if at < entries.len() {
        entries[at] = number_of(place, entry);
    }
    at + 1
}
