// Locate: which column, if any, explains every chain that is broken.
// Each chain is counted once; bytes are compared only of two chains that differ by as many bits, and by some.
#![tactic(auto)]

ghost use Rattle.std.specs.Prelude.{◌+◌, ◌≤◌, ◌<◌, ◌≡◌, length};
ghost use Rattle.xor.specs.Tells.{Tells};
ghost use Rattle.shape.specs.Good.{Good, size};
ghost use Rattle.shape.specs.Step.{left, right};
ghost use Rattle.chain.specs.Chain.{Part};
ghost use Rattle.checking.specs.Bits.{Bits};
ghost use Rattle.locating.specs.Locate.{Locate, found};
ghost use Rattle.locating.specs.Locating.{Compares, Alike, Apart, Unbroken, Within, Searched};

use answer::Refusal;
use block::LONGEST;
use chain::difference;
use checking::bits_by_chain;
use shape::{Shape, Stripe};
use walking::{Walk, along};

// What locate finds.
#[derive(Clone, Copy, Debug, PartialEq, Eq)]
pub enum Damage {
    Sound,
    Column(usize),
    Several,
}

impl Damage {
    // The finding in numbers: 0 sound, 1 one column, 2 more; and the column or 0.
    #[tactic(auto, unfolding(crate::specs::Locate::found))]
    pub fn numbers(self) -> (usize, usize)
        ensures { result ≡ found self }
    {
        match self {
            Damage::Sound => (0, 0),
            Damage::Column(column) => (1, column),
            Damage::Several => (2, 0),
        }
    }
}

// Says no in `same` if LEN bytes from `from` on of the chains that wk and other walk differ unlike, and gives LEN.
fn level<const LEN: usize>(same: &mut bool, s: &[u8], wk: Walk, other: Walk, from: usize) -> usize
    requires part { Part wk.shape s.now from LEN }
    requires one_shape { other.shape ≡ wk.shape }
    ensures { (result ≡ LEN) × (Compares wk.shape s.now wk.p other.p from (from + result) same.old same.new) }
{
    let mut acc: [u8; LEN] = difference(s, wk, from, LEN);
    let second = difference(s, other, from, LEN);
    block::join(&mut acc, &second, LEN);
    if !looking::none(&acc, LEN) {
        *same = false;
    }
    LEN
}

// Compares the next bytes of those chains, as many as the longest length that fits, and gives that length.
fn level_some(same: &mut bool, s: &[u8], wk: Walk, other: Walk, from: usize) -> usize
    requires sized { length s.now ≡ size wk.shape }
    requires one_shape { other.shape ≡ wk.shape }
    requires inside { from < wk.shape.w }
    ensures { (1 ≤ result) × (from + result ≤ wk.shape.w) × (Compares wk.shape s.now wk.p other.p from (from + result) same.old same.new) }
{
    let left = wk.shape.w - from;
    if LONGEST <= left {
        return level::<LONGEST>(same, s, wk, other, from);
    }
    match left {
        ..16 => level::<1>(same, s, wk, other, from),
        16..64 => level::<16>(same, s, wk, other, from),
        _ => level::<64>(same, s, wk, other, from),
    }
}

// Whether chains p and q differ by the same bytes.
fn alike(stripe: Stripe, p: usize, q: usize) -> bool
    requires { (p < stripe.shape.n) × (q < stripe.shape.n) }
    ensures { Tells (Alike stripe.entry.shape stripe.entry.bytes.now p q) result }
{
    let wk = along(stripe.shape, p);
    let other = along(stripe.shape, q);
    let mut same = true;
    let mut from = 0;
    // Not a `for`: each turn goes on by as many bytes as it compared.
    while from < stripe.shape.w {
        from += level_some(&mut same, stripe.bytes, wk, other, from);
    }
    same
}

// Whether no chain is broken.
fn unbroken(shape: Shape, bits: &[u16; 64]) -> bool
    requires { Good shape }
    ensures { Tells (Unbroken shape bits.now) result }
{
    bits[..shape.n].iter().all(|&differing| differing == 0)
}

// Whether chain p is m columns or more from column c, either way round.
fn apart(shape: Shape, c: usize, p: usize) -> bool
    requires { (Good shape) × (c < shape.n) × (p < shape.n) }
    ensures { Tells (Apart shape c p) result }
{
    let n = shape.n;
    let m = shape.m;
    let steps = (p + (n - c)) % n;
    if steps < m {
        return false;
    }
    if n - steps < m {
        return false;
    }
    true
}

// Whether every chain that is broken is within m-1 columns of column c.
fn within(shape: Shape, bits: &[u16; 64], c: usize) -> bool
    requires { (Good shape) × (c < shape.n) }
    ensures { Tells (Within shape bits.now c) result }
{
    for p in 0..shape.n {
        if bits[p] != 0 && apart(shape, c, p) {
            return false;
        }
    }
    true
}

// Whether the chains of height d on either side of column c differ by the same bytes.
fn paired(stripe: Stripe, bits: &[u16; 64], c: usize, d: usize) -> bool
    requires { (Bits stripe.shape stripe.bytes.now bits.now) × (c < stripe.shape.n) × (d < stripe.shape.m) }
    ensures { Tells (Alike stripe.entry.shape stripe.entry.bytes.now (left stripe.entry.shape.n c d) (right stripe.entry.shape.n c d)) result }
{
    let p = stripe.shape.left(c, d);
    let q = stripe.shape.right(c, d);
    if bits[p] != bits[q] {
        return false;
    }
    if bits[p] == 0 {
        return true;
    }
    alike(stripe, p, q)
}

// The first column that explains every difference, or Several.
fn search(stripe: Stripe, bits: &[u16; 64]) -> Damage
    requires { Bits stripe.shape stripe.bytes.now bits.now }
    ensures { Searched stripe.entry.shape stripe.entry.bytes.now (found result) }
{
    let mut next = 0;
    // A `loop` that breaks out with its value is how document 01 has the search over columns.
    'columns: loop {
        if stripe.shape.n <= next {
            break 'columns Damage::Several;
        }
        let c = next;
        next += 1;
        if !within(stripe.shape, bits, c) {
            continue 'columns;
        }
        for d in 1..stripe.shape.m {
            if !paired(stripe, bits, c, d) {
                continue 'columns;
            }
        }
        break 'columns Damage::Column(c);
    }
}

// Whether the stripe is sound, or which column a change has to be in to make it so; the stripe is only read.
pub fn locate(shape: Shape, stripe: &[u8]) -> Result<Damage, Refusal>
    ensures { Locate shape stripe.now result }
{
    let stripe = shape.stripe(stripe)?;
    let bits = bits_by_chain(stripe);
    if unbroken(stripe.shape, &bits) {
        return Ok(Damage::Sound);
    }
    Ok(search(stripe, &bits))
}
