// The state of the part, by value. Only `Load` holds arrays, so every other struct stays small. A flag stands beside its value, and the
// marks beside the bytes: `twin::replay` takes every such state, and hands a refused one back the same.

// Bytes in a page. The two arrays of a page load have as many elements.
pub const PAGE: u16 = 64;

// A 16-bit address as the bus sends it: FFFFh chooses the control register.
#[derive(Clone, Copy)]
pub struct BusAddress(pub u16);

// A place in the array: the only thing that indexes the memory.
#[derive(Clone, Copy)]
pub struct Place(pub u16);

// The two bus lines as the last sample left them; true is high.
#[derive(Clone, Copy)]
pub struct Lines {
    pub scl: bool,
    pub sda: bool,
}

// The byte on the wire: whether a bit is taken and not yet committed, that bit, how many bits are
// committed (0 to 8), and their value, highest first.
#[derive(Clone, Copy)]
pub struct Frame {
    pub held: bool,
    pub bit: bool,
    pub bits: u8,
    pub shift: u8,
}

#[derive(Clone, Copy)]
pub struct Wire {
    pub lines: Lines,
    pub frame: Frame,
}

// What the part expects next, or sends.
#[derive(Clone, Copy)]
pub enum Phase {
    Idle,
    Silent,
    Slave,
    High,
    Low,
    Data,
    Register,
    Send,
    SendRegister,
}

// The conversation: its phase, the address's high byte, the byte being sent (the bit that is out is
// its highest; 0 where none is being sent), and the part's own SDA level (false pulls it low).
#[derive(Clone, Copy)]
pub struct Talk {
    pub phase: Phase,
    pub high: u8,
    pub out: u8,
    pub own: bool,
}

// The control register: the stored bits, the two latches, whether the register is chosen, and the
// byte that waits for a stop (0 where none is pending).
#[derive(Clone, Copy)]
pub struct Control {
    pub stored: u8,
    pub wel: bool,
    pub rwel: bool,
    pub chosen: bool,
    pub pending: bool,
    pub value: u8,
}

// What a sign on the wire can change, but for the page load.
#[derive(Clone, Copy)]
pub struct Device {
    pub talk: Talk,
    pub counter: Place,
    pub control: Control,
}

// The page load: 64 bytes and which of them came.
#[derive(Clone, Copy)]
pub struct Load {
    pub bytes: [u8; 64],
    pub marks: [bool; 64],
}

#[derive(Clone, Copy)]
pub struct Watchdog {
    pub running: bool,
    pub left: u32,
}

// Times left, in microseconds, with reset and the low-VCC flag.
#[derive(Clone, Copy)]
pub struct Timers {
    pub write: u32,
    pub hold: u32,
    pub reset: bool,
    pub low: bool,
    pub watchdog: Watchdog,
}

// The chip on the bench: its part number and its device select.
#[derive(Clone, Copy)]
pub struct Chip {
    pub part: u16,
    pub select: u8,
}

// The whole state. Definitions take its fields anew by the setters of specs/State.
#[derive(Clone, Copy)]
pub struct State {
    pub chip: Chip,
    pub timers: Timers,
    pub wire: Wire,
    pub device: Device,
    pub load: Load,
}
