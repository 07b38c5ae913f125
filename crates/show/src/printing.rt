// The text that is printed: a line for what happens at a sample, a line for each byte with what was
// answered in its ninth clock.
use crate::entry::Entry;
use crate::figures::Decimal;
use crate::reasons::{Bits, CutOff, Withheld};
use std::io::Write;
use std::{fmt, io};
use texts::numbers;
use transfers::tags;

// Where the text stands: at a line's beginning, in the line of a sample, or in that of a byte whose
// ninth clock is to come, with the byte's entry.
#[derive(Clone, Copy)]
enum Stands {
    AtBeginning,
    InSample(u64),
    InByte(Entry),
}

// What happened at a sample.
#[derive(Clone, Copy)]
struct Event(Entry);

impl fmt::Display for Event {
    fn fmt<W: fmt::Write>(&self, f: &mut fmt::Formatter<W>) -> fmt::Result {
        let entry = self.0;
        let bits = Bits(entry.value());
        match entry.tag() {
            tags::START => write!(f, "start{bits}"),
            tags::STOP => write!(f, "stop{bits}{}", CutOff(entry)),
            tags::CYCLE_BEGINS => write!(f, "write cycle begins"),
            tags::CYCLE_ENDS => write!(f, "write cycle ends"),
            tags::RESET_BEGINS => write!(f, "reset begins"),
            tags::RESET_ENDS => write!(f, "reset ends"),
            _ => write!(f, "?"),
        }
    }
}

// What a byte is for, in a column of its own.
fn role(byte: Entry) -> &'static [u8; 28] {
    match byte.tag() {
        tags::SLAVE if byte.value() % 2 == 1 => b"slave byte, read            ",
        tags::SLAVE => b"slave byte, write           ",
        tags::HIGH => b"address, high               ",
        tags::LOW => b"address, low                ",
        tags::DATA => b"data                        ",
        tags::REGISTER => b"for the control register    ",
        tags::SENT => b"sent by the part            ",
        tags::REGISTER_SENT => b"register, sent by the part  ",
        _ => b"not heard                   ",
    }
}

// Ends the line of a byte that had no ninth clock.
fn put_broken_off<W: Write>(out: &mut W, byte: Entry) -> io::Result<()> {
    out.write_all(b"broken off before its ninth clock")?;
    if byte.note() != tags::NO_REASON {
        out.write_all(b", no acknowledge")?;
    }
    writeln!(out, "{}", Withheld(byte))
}

// Ends the line in which the text stands; a byte there had no ninth clock.
fn put_end<W: Write>(out: &mut W, stands: Stands) -> io::Result<()> {
    match stands {
        Stands::AtBeginning => Ok(()),
        Stands::InSample(_) => writeln!(out),
        Stands::InByte(byte) => put_broken_off(out, byte),
    }
}

// What happens at a sample, in its line, which may be begun. A write cycle that ends within a byte does
// not break it off.
fn put_event<W: Write>(out: &mut W, stands: Stands, event: Entry) -> io::Result<Stands> {
    let place = event.place();
    match stands {
        Stands::InByte(_) if event.tag() == tags::CYCLE_ENDS => {
            write!(out, "(write cycle ends at sample {}) ", Decimal(place))?;
            return Ok(stands);
        }
        Stands::InSample(at) if at == place => write!(out, ", {}", Event(event))?,
        _ => {
            put_end(out, stands)?;
            write!(out, "sample {}: {}", Decimal(place), Event(event))?;
        }
    }
    Ok(Stands::InSample(place))
}

// A byte at its eighth fall. Each write goes to the system by itself, so they are few.
fn put_byte<W: Write>(out: &mut W, stands: Stands, byte: Entry) -> io::Result<Stands> {
    put_end(out, stands)?;
    let [high, low] = numbers::byte(byte.value());
    out.write_all(&[b' ', b' ', high, low, b' ', b' '])?;
    out.write_all(role(byte))?;
    Ok(Stands::InByte(byte))
}

// The answer to a byte in its ninth clock: by the line's level that of the station where the part sent
// the byte, else that of the part, by its own level and the line's.
fn put_answer<W: Write>(out: &mut W, byte: Entry, levels: u8) -> io::Result<()> {
    match byte.tag() {
        tags::SENT | tags::REGISTER_SENT if levels % 2 == 1 => writeln!(
            out,
            "NO ACK by the station"
        ),
        tags::SENT | tags::REGISTER_SENT => writeln!(out, "ACK by the station"),
        _ => match levels {
            0 | 1 => writeln!(out, "ACK"),
            2 => writeln!(out, "NO ACK, SDA held low from outside{}", Withheld(byte)),
            _ => writeln!(out, "NO ACK{}", Withheld(byte)),
        },
    }
}

// The ninth clock of a byte.
fn put_ninth<W: Write>(out: &mut W, stands: Stands, levels: u8) -> io::Result<Stands> {
    match stands {
        Stands::InByte(byte) => put_answer(out, byte, levels)?,
        _ => {
            put_end(out, stands)?;
            writeln!(out, "  ninth clock of a byte that came before")?;
        }
    }
    Ok(Stands::AtBeginning)
}

// One entry of the list.
fn put_entry<W: Write>(out: &mut W, stands: Stands, entry: Entry) -> io::Result<Stands> {
    match entry.tag() {
        tags::SLAVE..=tags::UNHEARD => put_byte(out, stands, entry),
        tags::NINTH => put_ninth(out, stands, entry.value()),
        _ => put_event(out, stands, entry),
    }
}

// The first entries of a row, one after the other.
pub fn put_list<W: Write>(out: &mut W, entries: &[u64], count: usize) -> io::Result<()> {
    let mut stands = Stands::AtBeginning;
    for number in entries.iter().take(count) {
        stands = put_entry(out, stands, Entry(*number))?;
    }
    put_end(out, stands)
}
