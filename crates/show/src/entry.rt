// An entry of the list of transfers, and the parts of its number.
use transfers::tags;

#[derive(Clone, Copy)]
pub struct Entry(pub u64);

impl Entry {
    // What it is.
    pub fn tag(self) -> u8 {
        (self.0 / tags::TAG % 256) as u8
    }

    // A byte, a count of bits, or levels.
    pub fn value(self) -> u8 {
        (self.0 % 256) as u8
    }

    // What else a stop or a byte says.
    pub fn note(self) -> u8 {
        (self.0 / tags::NOTE % 256) as u8
    }

    // The first and the last page that is locked.
    pub fn pages(self) -> (u8, u8) {
        let pages = self.0 / tags::PAGES;
        ((pages % 256) as u8, (pages / 256 % 256) as u8)
    }

    // The number of its sample.
    pub fn place(self) -> u64 {
        self.0 / tags::PLACE
    }
}
