// What an entry's number tells beside its tag and value: why an acknowledge was withheld, and what a
// stop cut off. Codes and pages are printed as the list has them.
use crate::entry::Entry;
use crate::figures::{Address, Decimal};
use part::state::PAGE;
use std::fmt;
use transfers::tags;

// Why the acknowledge of a byte was withheld; no text where it was not. A code is what a note has over a
// multiple of `LOCKED`; it locks from the first address of its first page to the last of its last.
#[derive(Clone, Copy)]
pub struct Withheld(pub Entry);

impl fmt::Display for Withheld {
    fn fmt<W: fmt::Write>(&self, f: &mut fmt::Formatter<W>) -> fmt::Result {
        let entry = self.0;
        match entry.note() {
            tags::NO_REASON => Ok(()),
            tags::WEL_LOW => write!(f, ": WEL is low"),
            tags::SECOND_BYTE => write!(f, ": second register byte"),
            note => {
                let (first, last) = entry.pages();
                let code = Decimal(u64::from(note % tags::LOCKED));
                let from = Address(u16::from(first) * PAGE);
                let to = Address(u16::from(last) * PAGE + (PAGE - 1));
                write!(f, ": page locked, code {code} locks {from} to {to}")
            }
        }
    }
}

// What a stop cut off, and what was dropped by that.
#[derive(Clone, Copy)]
pub struct CutOff(pub Entry);

impl fmt::Display for CutOff {
    fn fmt<W: fmt::Write>(&self, f: &mut fmt::Formatter<W>) -> fmt::Result {
        let entry = self.0;
        let note = entry.note();
        if note & tags::CUT != 0 {
            write!(f, ": byte cut short")?;
        }
        if note & tags::LOAD_DROPPED != 0 {
            write!(f, ", load dropped")?;
        }
        if note & tags::REGISTER_DROPPED != 0 {
            write!(f, ", register byte dropped")?;
        }
        Ok(())
    }
}

// The bits of a byte that a start or a stop cut off. A whole byte has a line of its own.
#[derive(Clone, Copy)]
pub struct Bits(pub u8);

impl fmt::Display for Bits {
    fn fmt<W: fmt::Write>(&self, f: &mut fmt::Formatter<W>) -> fmt::Result {
        let bits = self.0;
        match bits {
            1 => write!(f, " after 1 bit of a byte"),
            2..=7 => write!(f, " after {} bits of a byte", Decimal(u64::from(bits))),
            _ => Ok(()),
        }
    }
}
