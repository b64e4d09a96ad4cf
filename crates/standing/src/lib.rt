// Whether a chain of the stripe holds as it stands, a block at a time as in encode: its parity symbol against the others.
#![tactic(auto)]

ghost use Rattle.std.specs.Prelude.{◌≡◌, ℕ, ◌+◌, ◌%◌, ◌≤◌, ◌<◌, length};
ghost use Rattle.xor.specs.Tells.{Tells};
ghost use Rattle.shape.specs.Good.{size};
ghost use Rattle.shape.specs.Step.{right};
ghost use Rattle.chain.specs.Chain.{Part};
ghost use Rattle.matching.specs.Matching.{Found};
ghost use Rattle.standing.specs.Standing.{others_at, parity_at, Even};

use block::LONGEST;
use chain::others;
use shape::Stripe;
use walking::{Walk, above, along};

// Whether len bytes from `from` on of the chain that wk walks obey the rule, by a block of LEN.
// (`always`: the length has to stand as a constant where `others` is called.)
#[inline(always)]
fn even_part<const LEN: usize>(s: &[u8], wk: Walk, from: usize, len: usize) -> bool
    requires block { (len ≤ LEN) × (LEN ≤ 128) }
    requires part { Part wk.shape s.now from len }
    ensures { Tells (Even wk.shape s.now wk.p from (from + len)) result }
{
    let acc: [u8; LEN] = others(s, wk, from, len);
    looking::same(&acc, s, wk.at + from, len)
}

// Whether the first `front` bytes of that chain, a number of half blocks, obey the rule. (Not `for`, which costs more instructions a block.)
fn even_front(s: &[u8], wk: Walk, front: usize) -> bool
    requires sized { length s.now ≡ size wk.shape }
    requires inside { front ≤ wk.shape.w }
    requires halves { front % 64 ≡ 0 }
    ensures { Tells (Even wk.shape s.now wk.p 0 front) result }
{
    let whole = front - front % LONGEST;
    let mut from = 0;
    while from < whole {
        if !even_part::<LONGEST>(s, wk, from, LONGEST) {
            return false;
        }
        from += LONGEST;
    }
    if whole == front {
        return true;
    }
    even_part::<64>(s, wk, whole, 64)
}

// How many of the bytes from `from` on obey the rule, 16 or 1 as they fit; none if they do not.
// (16 bytes as the front of a block of 64: in a block of their own they would be a call.)
fn even_some(s: &[u8], wk: Walk, from: usize) -> Option<usize>
    requires sized { length s.now ≡ size wk.shape }
    requires inside { from < wk.shape.w }
    ensures { Found (others_at wk.shape s.now wk.p) (parity_at wk.shape s.now wk.p) from wk.shape.w result }
{
    match wk.shape.w - from {
        ..16 => even_part::<1>(s, wk, from, 1).then_some(1),
        _ => even_part::<64>(s, wk, from, 16).then_some(16),
    }
}

// Whether the bytes of that chain from `start` on obey the rule. (Not `for`: the step varies.)
fn even_tail(s: &[u8], wk: Walk, start: usize) -> bool
    requires sized { length s.now ≡ size wk.shape }
    requires inside { start ≤ wk.shape.w }
    ensures { Tells (Even wk.shape s.now wk.p start wk.shape.w) result }
{
    let mut from = start;
    while from < wk.shape.w {
        let Some(some) = even_some(s, wk, from) else {
            return false;
        };
        from += some;
    }
    true
}

// Whether chain p obeys the rule.
fn even(stripe: Stripe, p: usize) -> bool
    requires { p < stripe.shape.n }
    ensures { Tells (Even stripe.entry.shape stripe.entry.bytes.now p 0 stripe.entry.shape.w) result }
{
    let Stripe { shape, bytes } = stripe;
    let wk = along(shape, p);
    let front = shape.w - shape.w % 64;
    even_front(bytes, wk, front) && even_tail(bytes, wk, front)
}

// Whether a stretch of `count` chains from `start` on obeys the rule; whoever calls it asks for no more chains than
// there are.
pub fn all_even(stripe: Stripe, start: usize, count: usize) -> bool
    requires { (start < stripe.shape.n) × (count ≤ stripe.shape.n) }
    ensures { Tells ((i : ℕ) → i < count → Even stripe.entry.shape stripe.entry.bytes.now (right stripe.entry.shape.n start i) 0 stripe.entry.shape.w) result }
{
    let mut p = start;
    for i in 0..count {
        if !even(stripe, p) {
            return false;
        }
        p = above(stripe.shape.n, p, 1);
    }
    true
}
