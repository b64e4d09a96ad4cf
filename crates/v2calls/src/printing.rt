// Standard output by large pieces: a buffer, and how many of its bytes are still to be written.
// Each function takes that number and gives it back as it is afterwards.
ghost use Rattle.std.specs.Prelude.{◌≡◌, ◌+◌, ◌≤◌, ◌<◌, length};
ghost use Rattle.io.specs.Digits.{hex_digit_ascii};
ghost use Rattle.v2calls.specs.Room.{Room, Last, Spells};

// The file descriptor of standard output.
const STDOUT: i32 = 1;

// Writes the first `used` bytes.
pub(crate) fn flush(out: &[u8], used: usize)
    requires { used ≤ length out.now }
{
    io::write_all(STDOUT, &out[..used]);
}

// Makes room for two bytes: where the buffer has none, it is written.
fn room(out: &[u8], used: usize) -> usize
    requires { Room out.now used }
    ensures { result + 2 ≤ length out.now }
{
    if 2 <= out.len() - used {
        return used;
    }
    flush(out, used);
    0
}

// Puts one byte.
pub(crate) fn put(out: &mut [u8], used: usize, byte: u8) -> usize
    requires { Room out.old used }
    ensures { (Room out.new result) × (Last out.new result byte) }
{
    let at = room(out, used);
    out[at] = byte;
    at + 1
}

// Puts all of these bytes.
pub(crate) fn text(out: &mut [u8], used: usize, bytes: &[u8]) -> usize
    requires { Room out.old used }
    ensures { Room out.new result }
{
    let mut at = used;
    for byte in bytes {
        at = put(out, at, *byte);
    }
    at
}

// Puts a number in decimal.
pub(crate) fn decimal(out: &mut [u8], used: usize, number: usize) -> usize
    requires { Room out.old used }
    ensures { Room out.new result }
{
    let mut digits = [0u8; 20];
    let count = io::decimal(number as u64, &mut digits);
    text(out, used, &digits[..count])
}

// The hexadecimal digit of a number below 16, in lower case.
fn digit(number: u8) -> u8
    requires { number < 16 }
    ensures { result ≡ hex_digit_ascii number }
{
    if number < 10 {
        48 + number
    } else {
        87 + number
    }
}

// Puts a byte in two hexadecimal digits.
fn pair(out: &mut [u8], used: usize, byte: u8) -> usize
    requires { Room out.old used }
    ensures { (Room out.new result) × (Spells out.new result byte) }
{
    let at = room(out, used);
    out[at] = digit(byte / 16);
    out[at + 1] = digit(byte % 16);
    at + 2
}

// Puts bytes in hexadecimal, or `-` where there are none.
pub(crate) fn hex(out: &mut [u8], used: usize, bytes: &[u8]) -> usize
    requires { Room out.old used }
    ensures { Room out.new result }
{
    if bytes.len() == 0 {
        return put(out, used, b'-');
    }
    let mut at = used;
    for byte in bytes {
        at = pair(out, at, *byte);
    }
    at
}
