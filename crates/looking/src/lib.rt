// What is asked of a block: whether it is zero or like a part of a slice, and how many of its bits are 1.
// Each looks at every byte, without leaving early: that is what the compiler makes wide.
#![tactic(auto)]

ghost use Rattle.std.specs.Prelude.{◌≡◌, ◌+◌, ◌*◌, ◌^◌, ◌≤◌, ◌<◌, length};
ghost use Rattle.std.specs.Int.Count.{ones};
ghost use Rattle.xor.specs.Tells.{Tells};
ghost use Rattle.looking.specs.Looking.{Zero, Same, Ones};

// Whether the first len bytes of acc are 0.
pub fn none<const LEN: usize>(acc: &[u8; LEN], len: usize) -> bool
    requires { len ≤ LEN }
    ensures { Tells (Zero acc.now len) result }
{
    let mut any = 0;
    for k in 0..len {
        any |= acc[k];
    }
    any == 0
}

// Whether the first len bytes of acc are like those of s from `at` on; whoever calls it stays within the slice.
pub fn same<const LEN: usize>(acc: &[u8; LEN], s: &[u8], at: usize, len: usize) -> bool
    requires { (len ≤ LEN) × (at + len ≤ length s.now) }
    ensures { Tells (Same acc.now s.now at len) result }
{
    let mut any = 0;
    for k in 0..len {
        any |= acc[k] ^ s[at + k];
    }
    any == 0
}

// How many bits of x are 1.
fn bits(x: u8) -> u16
    ensures { (result ≡ ones x) × (result ≤ 8) }
{
    u8::count_ones(x) as u16
}

// How many bits of the first len bytes of acc are 1; whoever calls it has as few as a u16 counts the bits of.
pub fn count<const LEN: usize>(acc: &[u8; LEN], len: usize) -> u16
    requires { (len ≤ LEN) × (8 * len < 2 ^ 16) }
    ensures { Ones acc.now len result }
{
    let mut sum = 0;
    for k in 0..len {
        sum += bits(acc[k]);
    }
    sum
}
