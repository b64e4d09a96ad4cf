// Encode: every parity symbol by the rule, chain after chain.
// A chain goes by blocks of literal lengths, so that the compiler keeps each in registers: whole blocks in a loop of
// their own, then the tail.
#![tactic(auto)]

ghost use Rattle.std.specs.Prelude.{◌≡◌, ◌+◌, ◌%◌, ◌≤◌, ◌<◌, length};
ghost use Rattle.shape.specs.Good.{Good, size};
ghost use Rattle.chain.specs.Chain.{Part};
ghost use Rattle.encoding.specs.Settled.{Settled, Stretch};
ghost use Rattle.encoding.specs.Encode.{Encoded, Encode};

use answer::Answer;
use block::LONGEST;
use chain::others;
use shape::Shape;
use walking::{Walk, along};

// Sets len bytes of the parity symbol of a chain, by a block of LEN, and gives len.
fn encode_part<const LEN: usize>(stripe: &mut [u8], wk: Walk, from: usize, len: usize) -> usize
    requires block { (len ≤ LEN) × (LEN ≤ 128) }
    requires part { Part wk.shape stripe.old from len }
    ensures { (result ≡ len) × (Settled wk.shape (Stretch wk.p from (from + result)) stripe.old stripe.new) }
{
    let acc: [u8; LEN] = others(stripe, wk, from, len);
    block::put(&acc, stripe, wk.at + from, len);
    len
}

// Sets the first `whole` bytes of that parity symbol, a number of whole blocks. (Not `for`, which costs more
// instructions a block.)
fn encode_blocks(stripe: &mut [u8], wk: Walk, whole: usize)
    requires sized { length stripe.old ≡ size wk.shape }
    requires inside { whole ≤ wk.shape.w }
    requires blocks { whole % 128 ≡ 0 }
    ensures { Settled wk.shape (Stretch wk.p 0 whole) stripe.old stripe.new }
{
    let mut from = 0;
    while from < whole {
        from += encode_part::<LONGEST>(stripe, wk, from, LONGEST);
    }
}

// Sets the next bytes of that parity symbol, as many as the longest length that fits, and gives that length.
// (16 bytes as the front of a block of 64: in a block of their own they would be a call.)
fn encode_some(stripe: &mut [u8], wk: Walk, from: usize) -> usize
    requires sized { length stripe.old ≡ size wk.shape }
    requires inside { from < wk.shape.w }
    ensures { (1 ≤ result) × (from + result ≤ wk.shape.w) × (Settled wk.shape (Stretch wk.p from (from + result)) stripe.old stripe.new) }
{
    match wk.shape.w - from {
        ..16 => encode_part::<1>(stripe, wk, from, 1),
        16..64 => encode_part::<64>(stripe, wk, from, 16),
        _ => encode_part::<64>(stripe, wk, from, 64),
    }
}

// Sets the bytes of that parity symbol from `start` on. (Not `for`: the step varies.)
fn encode_tail(stripe: &mut [u8], wk: Walk, start: usize)
    requires sized { length stripe.old ≡ size wk.shape }
    requires inside { start ≤ wk.shape.w }
    ensures { Settled wk.shape (Stretch wk.p start wk.shape.w) stripe.old stripe.new }
{
    let mut from = start;
    while from < wk.shape.w {
        from += encode_some(stripe, wk, from);
    }
}

// Sets the parity symbol of chain p.
fn encode_chain(sh: Shape, stripe: &mut [u8], p: usize)
    requires { (Good sh) × (length stripe.old ≡ size sh) × (p < sh.n) }
    ensures { Settled sh (Stretch p 0 sh.w) stripe.old stripe.new }
{
    let wk = along(sh, p);
    let whole = sh.w - sh.w % LONGEST;
    encode_blocks(stripe, wk, whole);
    encode_tail(stripe, wk, whole);
}

// Sets every parity symbol.
fn encode_all(sh: Shape, stripe: &mut [u8])
    requires { (Good sh) × (length stripe.old ≡ size sh) }
    ensures { Encoded sh stripe.old stripe.new }
{
    for p in 0..sh.n {
        encode_chain(sh, stripe, p);
    }
}

// Sets every parity symbol by the rule; the information is untouched, and a refused stripe as it was.
pub fn encode(shape: Shape, stripe: &mut [u8]) -> Answer
    ensures { Encode shape stripe.old result stripe.new }
{
    shape.accept_stripe(stripe)?;
    encode_all(shape, stripe);
    Ok(())
}
