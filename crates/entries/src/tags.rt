// The parts of an entry's number, each with the unit that it counts in: `number / TAG % 256` is its tag,
// and so on. The value is `number % 256`, the place of the sample `number / PLACE`.

// What the entry is, 8 bits.
pub const TAG: u64 = 0x100;

// What else a stop or a byte says, 8 bits.
pub const NOTE: u64 = 0x1_0000;

// The pages that are locked, 16 bits: the first, then the last.
pub const PAGES: u64 = 0x100_0000;

// The place of its sample, 24 bits.
pub const PLACE: u64 = 0x100_0000_0000;

// How many places a number can tell.
pub const PLACES: usize = 0x100_0000;

// The value is the count of bits that were cut off.
pub const START: u8 = 0;

// As well; the note is the sum of what else there is to say: a byte that a stop acts on was cut off, a
// load was dropped by that, a pending register byte was.
pub const STOP: u8 = 1;

pub const CUT: u8 = 1;

pub const LOAD_DROPPED: u8 = 2;

pub const REGISTER_DROPPED: u8 = 4;

// The value is the byte; the tag is its role.
pub const SLAVE: u8 = 2;

pub const HIGH: u8 = 3;

pub const LOW: u8 = 4;

pub const DATA: u8 = 5;

pub const REGISTER: u8 = 6;

pub const SENT: u8 = 7;

pub const REGISTER_SENT: u8 = 8;

pub const UNHEARD: u8 = 9;

// The note of a byte is why its acknowledge is withheld; from LOCKED on its page is locked, with the
// block code added.
pub const NO_REASON: u8 = 0;

pub const WEL_LOW: u8 = 1;

pub const SECOND_BYTE: u8 = 2;

pub const LOCKED: u8 = 8;

// The value is 1 for the line and 2 for the part's own level.
pub const NINTH: u8 = 10;

pub const CYCLE_BEGINS: u8 = 11;

pub const CYCLE_ENDS: u8 = 12;

pub const RESET_BEGINS: u8 = 13;

pub const RESET_ENDS: u8 = 14;
