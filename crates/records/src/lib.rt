// A record of the input: its bytes and two-byte numbers, and whether a whole record stands there.
#![tactic(auto)]

ghost use Rattle.std.specs.Prelude.{◌≡◌, ◌+◌, ◌≤◌, length, get_or};
ghost use Rattle.xor.specs.Tells.{Tells};
ghost use Rattle.records.specs.Record.{two_bytes, Unframed};

// The least that a record may count: its kind.
const SHORTEST: usize = 2;

// The most that a record may count.
const LONGEST: usize = 4100;

// Byte i, or 0 past the end.
pub fn byte_at(s: &[u8], i: usize) -> usize
    ensures { (result ≡ get_or s.now i 0) × (result ≤ 255) }
{
    usize::from(s.get(i).copied().unwrap_or(0))
}

// The two-byte number at a place, the low byte first; whoever calls it stays within the slice.
pub fn two_bytes(s: &[u8], at: usize) -> usize
    requires { at + 2 ≤ length s.now }
    ensures { (result ≡ two_bytes s.now at) × (result ≤ 65535) }
{
    byte_at(s, at) + 256 * byte_at(s, at + 1)
}

// Whether the input does not begin with a whole record of a length that is allowed.
pub fn unframed(input: &[u8]) -> bool
    ensures { Tells (Unframed input.now) result }
{
    if input.len() < 2 {
        return true;
    }
    let counted = two_bytes(input, 0);
    if counted < SHORTEST {
        return true;
    }
    if LONGEST < counted {
        return true;
    }
    input.len() < 2 + counted
}
