// Check: how many chains of a stripe break the rule, and by how many bits.
// A block of a chain is counted only where it is not zero, so a sound stripe costs its XORs and no more.
#![tactic(auto)]

ghost use Rattle.std.specs.Prelude.{◌≡◌, ◌+◌, ◌*◌, ◌≤◌, ◌<◌, length, Ok};
ghost use Rattle.shape.specs.Good.{size};
ghost use Rattle.chain.specs.Chain.{Part};
ghost use Rattle.checking.specs.Check.{Check};
ghost use Rattle.checking.specs.Bits.{Counts, Chain, Bits};

use answer::Refusal;
use block::LONGEST;
use chain::difference;
use shape::{Shape, Stripe};
use walking::{Walk, along};

// What check reports: how many chains are broken, and by how many bits in all.
#[derive(Clone, Copy)]
pub struct Checked {
    pub broken: usize,
    pub bits: usize,
}

// Adds to bits how many a chain differs by in LEN bytes from `from` on, and gives LEN.
fn tally<const LEN: usize>(bits: &mut u16, s: &[u8], wk: Walk, from: usize) -> usize
    requires part { Part wk.shape s.now from LEN }
    requires few { bits.old ≤ 8 * from }
    ensures { (result ≡ LEN) × (Counts wk.shape s.now wk.p from (from + result) bits.old bits.new) }
{
    let acc: [u8; LEN] = difference(s, wk, from, LEN);
    if !looking::none(&acc, LEN) {
        *bits += looking::count(&acc, LEN);
    }
    LEN
}

// Counts the next bytes of that chain, of which so many are left: as many as the longest length that fits, which it gives.
// The longest is tested before the `match`, which would test it last: most of a symbol is whole blocks.
fn tally_some(bits: &mut u16, s: &[u8], wk: Walk, from: usize, left: usize) -> usize
    requires sized { length s.now ≡ size wk.shape }
    requires inside { (from + left ≡ wk.shape.w) × (1 ≤ left) }
    requires few { bits.old ≤ 8 * from }
    ensures { (1 ≤ result) × (result ≤ left) × (Counts wk.shape s.now wk.p from (from + result) bits.old bits.new) }
{
    if LONGEST <= left {
        return tally::<LONGEST>(bits, s, wk, from);
    }
    match left {
        ..16 => tally::<1>(bits, s, wk, from),
        16..64 => tally::<16>(bits, s, wk, from),
        _ => tally::<64>(bits, s, wk, from),
    }
}

// How many bits chain p differs by.
fn chain_bits(stripe: Stripe, p: usize) -> u16
    requires { p < stripe.shape.n }
    ensures { Chain stripe.entry.shape stripe.entry.bytes.now p result }
{
    let wk = along(stripe.shape, p);
    let mut bits = 0;
    let mut from = 0;
    let mut left = stripe.shape.w;
    // Not a `for`: each turn goes on by as many bytes as it counted.
    while 0 < left {
        let some = tally_some(&mut bits, stripe.bytes, wk, from, left);
        from += some;
        left -= some;
    }
    bits
}

// How many bits each chain differs by.
pub fn bits_by_chain(stripe: Stripe) -> [u16; 64]
    ensures { Bits stripe.entry.shape stripe.entry.bytes.now result }
{
    let mut bits = [0; 64];
    for p in 0..stripe.shape.n {
        bits[p] = chain_bits(stripe, p);
    }
    bits
}

// The report of a stripe that is not refused: a chain is broken where its bits are not 0.
fn counted(stripe: Stripe) -> Checked
    ensures { Check stripe.entry.shape stripe.entry.bytes.now (Ok result) }
{
    let by_chain = bits_by_chain(stripe);
    let mut broken = 0;
    let mut bits = 0;
    for &differing in &by_chain[..stripe.shape.n] {
        if differing != 0 {
            broken += 1;
        }
        bits += usize::from(differing);
    }
    Checked { broken, bits }
}

// How many chains of the stripe break the rule, and by how many bits in all.
pub fn check(shape: Shape, stripe: &[u8]) -> Result<Checked, Refusal>
    ensures { Check shape stripe.now result }
{
    Ok(counted(shape.stripe(stripe)?))
}
