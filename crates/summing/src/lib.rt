// Sums of symbols over a list of places, a block at a time and in registers.
// As in encode, a symbol goes by blocks of literal lengths: whole blocks in a loop of their own, then the tail.
#![tactic(auto)]

ghost use Rattle.std.specs.Prelude.{◌≡◌, ◌+◌, ◌%◌, ◌≤◌, ◌<◌, length};
ghost use Rattle.block.specs.Block.{Block};
ghost use Rattle.summing.specs.Sums.{summed, Fits, Clear, Summed};

use block::LONGEST;

// Where a symbol starts: in the stripe, or in the buffer, because it was asked for.
#[derive(Clone, Copy)]
pub enum Lies {
    Stripe(usize),
    Buffer(usize),
}

// What a symbol is the sum of: of the symbol of the stripe at a, of the one that lies at b, and of those at the first
// count places of a list.
#[derive(Clone, Copy)]
pub struct Sum {
    pub count: usize,
    pub a: usize,
    pub b: Lies,
}

// The sum x: len bytes from `from` on; whoever calls it stays within the slices.
#[inline(always)]
pub fn sum_at<'a, const LEN: usize>(
    s: &'a [u8],
    out: &'a [u8],
    list: &[u16; 32],
    x: Sum,
    from: usize,
    len: usize,
) -> [u8; LEN]
    requires block { len ≤ LEN }
    requires fits { Fits s.now out.now list.now x (from + len) }
    ensures { Block (λ t. summed s.now out.now list.now x (from + t)) len LEN result }
{
    let (t, b) = match x.b {
        Lies::Stripe(b) => (s, b),
        Lies::Buffer(b) => (out, b),
    };
    let mut acc = block::both(s, x.a + from, t, b + from, len);
    for i in 0..x.count / 2 {
        block::pair(
            &mut acc,
            s,
            list[2 * i] as usize + from,
            list[2 * i + 1] as usize + from,
            len,
        );
    }
    acc
}

// Sets LEN bytes of the symbol at `at` of the buffer to the sum x, and gives LEN.
fn sum_part<const LEN: usize>(
    s: &[u8],
    out: &mut [u8],
    list: &[u16; 32],
    x: Sum,
    at: usize,
    from: usize,
) -> usize
    requires { (Fits s.now out.old list.now x (from + LEN)) × (at + (from + LEN) ≤ length out.old) }
    ensures { (result ≡ LEN) × (Summed s.now list.now x at from (from + result) out.old out.new) }
{
    let acc: [u8; LEN] = sum_at(s, out, list, x, from, LEN);
    block::put(&acc, out, at + from, LEN);
    LEN
}

// Sets the first `whole` bytes of that symbol, a number of whole blocks. (Not `for`, which costs more instructions a
// block.)
fn sum_blocks(s: &[u8], out: &mut [u8], list: &[u16; 32], x: Sum, at: usize, whole: usize)
    requires { (Fits s.now out.old list.now x whole) × (at + whole ≤ length out.old) × (Clear x at whole) × (whole % 128 ≡ 0) }
    ensures { Summed s.now list.now x at 0 whole out.old out.new }
{
    let mut from = 0;
    while from < whole {
        from += sum_part::<LONGEST>(s, out, list, x, at, from);
    }
}

// Sets the next bytes of that symbol of w bytes, as many as the longest length that fits, and gives that length.
fn sum_some(
    w: usize,
    s: &[u8],
    out: &mut [u8],
    list: &[u16; 32],
    x: Sum,
    at: usize,
    from: usize,
) -> usize
    requires { (Fits s.now out.old list.now x w) × (at + w ≤ length out.old) × (from < w) }
    ensures { (1 ≤ result) × (from + result ≤ w) × (Summed s.now list.now x at from (from + result) out.old out.new) }
{
    match w - from {
        ..16 => sum_part::<1>(s, out, list, x, at, from),
        16..64 => sum_part::<16>(s, out, list, x, at, from),
        _ => sum_part::<64>(s, out, list, x, at, from),
    }
}

// Sets the bytes of that symbol from `start` on. (Not `for`: the step varies.)
fn sum_tail(w: usize, s: &[u8], out: &mut [u8], list: &[u16; 32], x: Sum, at: usize, start: usize)
    requires { (Fits s.now out.old list.now x w) × (at + w ≤ length out.old) × (Clear x at w) × (start ≤ w) }
    ensures { Summed s.now list.now x at start w out.old out.new }
{
    let mut from = start;
    while from < w {
        from += sum_some(w, s, out, list, x, at, from);
    }
}

// Sets the symbol of w bytes at `at` of the buffer to the sum x.
pub fn sum_symbol(w: usize, s: &[u8], out: &mut [u8], list: &[u16; 32], x: Sum, at: usize)
    requires { (Fits s.now out.old list.now x w) × (at + w ≤ length out.old) × (Clear x at w) }
    ensures { Summed s.now list.now x at 0 w out.old out.new }
{
    let whole = w - w % LONGEST;
    sum_blocks(s, out, list, x, at, whole);
    sum_tail(w, s, out, list, x, at, whole);
}
