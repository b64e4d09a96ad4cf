// Whether a symbol is the sum of others, a block at a time; the first block that is not ends the search.
#![tactic(auto)]

ghost use Rattle.std.specs.Prelude.{◌≡◌, ◌+◌, ◌%◌, ◌≤◌, ◌<◌, length};
ghost use Rattle.xor.specs.Tells.{Tells};
ghost use Rattle.summing.specs.Sums.{Fits, summed};
ghost use Rattle.matching.specs.Matching.{Level, Matched, Found, bytes_at};

use block::LONGEST;
use summing::{Sum, sum_at};

// Whether the sum's LEN bytes from `from` on are those of the symbol at `at` of u.
fn match_part<'a, const LEN: usize>(
    s: &'a [u8],
    out: &'a [u8],
    list: &[u16; 32],
    x: Sum,
    u: &[u8],
    at: usize,
    from: usize,
) -> bool
    requires { (Fits s.now out.now list.now x (from + LEN)) × (at + (from + LEN) ≤ length u.now) }
    ensures { Matched (summed s.now out.now list.now x) (bytes_at u.now at) from LEN result }
{
    let acc: [u8; LEN] = sum_at(s, out, list, x, from, LEN);
    looking::same(&acc, u, at + from, LEN)
}

// Whether the first `whole` bytes, a number of whole blocks, are the same. (Not `for`, which costs more instructions
// a block.)
fn match_blocks<'a>(
    s: &'a [u8],
    out: &'a [u8],
    list: &[u16; 32],
    x: Sum,
    u: &[u8],
    at: usize,
    whole: usize,
) -> bool
    requires { (Fits s.now out.now list.now x whole) × (at + whole ≤ length u.now) × (whole % 128 ≡ 0) }
    ensures { Tells (Level (summed s.now out.now list.now x) (bytes_at u.now at) 0 whole) result }
{
    let mut from = 0;
    while from < whole {
        if !match_part::<LONGEST>(s, out, list, x, u, at, from) {
            return false;
        }
        from += LONGEST;
    }
    true
}

// How many of the bytes from `from` on are the same, as many as the longest length that fits; none if they are not.
fn match_some<'a>(
    w: usize,
    s: &'a [u8],
    out: &'a [u8],
    list: &[u16; 32],
    x: Sum,
    u: &[u8],
    at: usize,
    from: usize,
) -> Option<usize>
    requires { (Fits s.now out.now list.now x w) × (at + w ≤ length u.now) × (from < w) }
    ensures { Found (summed s.now out.now list.now x) (bytes_at u.now at) from w result }
{
    match w - from {
        ..16 => match_part::<1>(s, out, list, x, u, at, from).then_some(1),
        16..64 => match_part::<16>(s, out, list, x, u, at, from).then_some(16),
        _ => match_part::<64>(s, out, list, x, u, at, from).then_some(64),
    }
}

// Whether the bytes of the symbol of w bytes from `start` on are the same. (Not `for`: the step varies.)
fn match_tail<'a>(
    w: usize,
    s: &'a [u8],
    out: &'a [u8],
    list: &[u16; 32],
    x: Sum,
    u: &[u8],
    at: usize,
    start: usize,
) -> bool
    requires { (Fits s.now out.now list.now x w) × (at + w ≤ length u.now) × (start ≤ w) }
    ensures { Tells (Level (summed s.now out.now list.now x) (bytes_at u.now at) start w) result }
{
    let mut from = start;
    while from < w {
        let Some(some) = match_some(w, s, out, list, x, u, at, from) else {
            return false;
        };
        from += some;
    }
    true
}

// Whether the symbol of w bytes at `at` of u is the sum x.
pub fn matches<'a>(
    w: usize,
    s: &'a [u8],
    out: &'a [u8],
    list: &[u16; 32],
    x: Sum,
    u: &[u8],
    at: usize,
) -> bool
    requires { (Fits s.now out.now list.now x w) × (at + w ≤ length u.now) }
    ensures { Tells (Level (summed s.now out.now list.now x) (bytes_at u.now at) 0 w) result }
{
    let whole = w - w % LONGEST;
    if match_blocks(s, out, list, x, u, at, whole) {
        return match_tail(w, s, out, list, x, u, at, whole);
    }
    false
}
