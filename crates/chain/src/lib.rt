// Along a chain: the XOR of its symbols, a block at a time and in registers.
// Encode, check, locate and the test of a chain that holds nothing lost go by `others` or `difference`; rebuild and
// fill go by lists of places.
#![tactic(auto)]

ghost use Rattle.std.specs.Prelude.{◌≡◌, ℕ, ◌+◌, ◌≤◌, length};
ghost use Rattle.block.specs.Block.{Block};
ghost use Rattle.shape.specs.Place.{byte};
ghost use Rattle.walking.specs.Walk.{Ways};
ghost use Rattle.rule.specs.Rule.{others, differs};
ghost use Rattle.chain.specs.Chain.{Part, Ran};

use shape::Shape;
use walking::Walk;

// Adds into acc the two symbols of each height from start to end - 1, in the columns l and r at height `base` and a
// column further apart each height.
fn run<const LEN: usize>(
    acc: &mut [u8; LEN],
    sh: Shape,
    s: &[u8],
    l: usize,
    r: usize,
    base: usize,
    from: usize,
    start: usize,
    end: usize,
    len: usize,
)
    requires block { len ≤ LEN }
    requires part { Part sh s.now from len }
    requires ways { (p : ℕ) × Ways sh p l r base start end }
    ensures ran { (p : ℕ) → Ways sh p l r base start end → Ran sh s.now p start end from len acc.old acc.new }
    ensures whole { length acc.new ≡ LEN }
{
    for d in start..end {
        let further = d - base;
        block::pair(
            acc,
            s,
            sh.place(d, l - further) + from,
            sh.place(d, r + further) + from,
            len,
        );
    }
}

// Adds into acc the symbols below the top height: those without a wrap, then those with one.
fn below<const LEN: usize>(acc: &mut [u8; LEN], s: &[u8], wk: Walk, from: usize, len: usize)
    requires block { len ≤ LEN }
    requires part { Part wk.shape s.now from len }
    ensures ran { Ran wk.shape s.now wk.p 1 wk.top from len acc.old acc.new }
    ensures whole { length acc.new ≡ LEN }
{
    run(acc, wk.shape, s, wk.p, wk.p, 0, from, 1, wk.end, len);
    run(
        acc, wk.shape, s, wk.l, wk.r, wk.end, from, wk.end, wk.top, len,
    );
}

// The XOR of the information symbols of a chain: len bytes of them from `from` on; whoever calls it stays within the
// stripe and its symbols. The hint keeps the block in registers where it is stored.
#[inline]
pub fn others<const LEN: usize>(s: &[u8], wk: Walk, from: usize, len: usize) -> [u8; LEN]
    requires block { len ≤ LEN }
    requires part { Part wk.shape s.now from len }
    ensures { Block (λ t. others wk.shape.m wk.shape.n (byte wk.shape s.now (from + t)) wk.p) len LEN result }
{
    let mut acc = block::both(s, wk.x + from, s, wk.y + from, len);
    below(&mut acc, s, wk, from, len);
    acc
}

// What a chain differs by, stored XOR computed parity: as `others`, with the parity symbol added before the heights
// below the top.
#[inline(always)]
pub fn difference<const LEN: usize>(s: &[u8], wk: Walk, from: usize, len: usize) -> [u8; LEN]
    requires block { len ≤ LEN }
    requires part { Part wk.shape s.now from len }
    ensures { Block (λ t. differs wk.shape s.now wk.p (from + t)) len LEN result }
{
    let mut acc = block::both(s, wk.x + from, s, wk.y + from, len);
    block::add(&mut acc, s, wk.at + from, len);
    below(&mut acc, s, wk, from, len);
    acc
}
