// Numbers in a text, by the digits that `texts` promises.
use std::fmt;
use texts::numbers;

// Digits are text as they stand.
fn put_digits<W: fmt::Write>(f: &mut fmt::Formatter<W>, digits: &[u8]) -> fmt::Result {
    f.write_str(str::from_utf8(digits).unwrap_or(""))
}

// A number in decimal.
#[derive(Clone, Copy)]
pub struct Decimal(pub u64);

impl fmt::Display for Decimal {
    fn fmt<W: fmt::Write>(&self, f: &mut fmt::Formatter<W>) -> fmt::Result {
        let mut room = [0; numbers::DIGITS];
        let length = numbers::put_decimal(self.0, &mut room, 0);
        put_digits(f, &room[..length])
    }
}

// An address in hexadecimal.
#[derive(Clone, Copy)]
pub struct Address(pub u16);

impl fmt::Display for Address {
    fn fmt<W: fmt::Write>(&self, f: &mut fmt::Formatter<W>) -> fmt::Result {
        put_digits(f, &numbers::address(self.0))
    }
}
