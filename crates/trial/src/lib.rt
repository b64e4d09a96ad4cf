// Bytes to try the calls on, and what is asked of them.
#![tactic(auto)]

ghost use Rattle.std.specs.Prelude.{length};
ghost use Rattle.xor.specs.Tells.{Tells};
ghost use Rattle.looking.specs.Looking.{Zero};

// Fills s with bytes that go on from the seed, each its own way.
pub fn pattern(s: &mut [u8], seed: usize) {
    let mut x = seed % 65536;
    for byte in s {
        x = (x * 25173 + 13849) % 65536;
        *byte = (x / 256 % 256) as u8;
    }
}

// A number that depends on every byte and on their order.
pub fn sum(s: &[u8]) -> u64 {
    let mut sum = 0;
    for byte in s {
        sum = (sum * 31 + u64::from(*byte)) % 65521;
    }
    sum
}

// Whether every byte is 0.
pub fn zeros(s: &[u8]) -> bool
    ensures { Tells (Zero s.now (length s.now)) result }
{
    s.iter().all(|&byte| byte == 0)
}
