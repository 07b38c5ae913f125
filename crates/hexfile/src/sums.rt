// Sums of bytes modulo 256.
ghost use Rattle.std.specs.Prelude.{◌≡◌, ◌+◌, ◌%◌, ◌≤◌, length};
ghost use Rattle.hexfile.specs.Pairs.{sum_of};
ghost use Rattle.hexfile.specs.Promises.{SumsUp};

// Bytes that are added at once.
const GROUP: usize = 8;

// What the bytes add up to, after `start`, modulo 256.
pub fn sum(start: u8, bytes: &[u8]) -> u8
    ensures { result ≡ (start + sum_of bytes.now) % 256 }
{
    bytes
        .iter()
        .fold(start, |total, &byte| total.wrapping_add(byte))
}

// Whether the first bytes of a room add up to 0 modulo 256. Those behind them are cleared, so that whole groups can be added.
pub fn sums_to_zero(room: &mut [u8], count: usize) -> bool
    requires { count + 8 ≤ length room.old }
    ensures { SumsUp room.old count result room.new }
{
    let end = count + GROUP;
    room[count..end].fill(0);
    let mut total = 0;
    for i in (0..count).step_by(GROUP) {
        total = sum(total, &room[i..i + GROUP]);
    }
    total == 0
}
