// Numbers as text.
ghost use Rattle.std.specs.Prelude.{◌≡◌, ◌+◌, ◌≤◌, length};
ghost use Rattle.texts.specs.Numbers.{decimal_of, byte_text, address_text};
ghost use Rattle.texts.specs.Laying.{Lays};

// The most digits of a number.
pub const DIGITS: usize = 20;

// Writes a number in decimal over `out` from `at` on, and answers where it ends.
pub fn put_decimal(value: u64, out: &mut [u8], at: usize) -> usize
    requires { at + 20 ≤ length out.old }
    ensures lays { Lays (decimal_of value) out.old at result out.new }
    ensures upper_bound { result ≤ at + 20 }
{
    let mut buffer = itoa::Buffer::new();
    let digits = buffer.format(value).as_bytes();
    let end = at + digits.len();
    out[at..end].copy_from_slice(digits);
    end
}

// The two digits of a byte.
pub fn byte(value: u8) -> [u8; 2]
    ensures { result ≡ byte_text value }
{
    [digits::high(value), digits::low(value)]
}

// The four digits of an address.
pub fn address(value: u16) -> [u8; 4]
    ensures { result ≡ address_text value }
{
    let [high, low] = value.to_be_bytes();
    [
        digits::high(high),
        digits::low(high),
        digits::high(low),
        digits::low(low),
    ]
}
