// Whether the survivors agree: each chain from which no lost symbol is solved, tested with the lost columns in place.
#![tactic(auto)]

ghost use Rattle.std.specs.Prelude.{◌≡◌, cond, ℕ, ◌+◌, ◌≤◌, ◌<◌, ltb};
ghost use Rattle.xor.specs.Tells.{Tells};
ghost use Rattle.shape.specs.Good.{Good};
ghost use Rattle.shape.specs.Place.{place};
ghost use Rattle.shape.specs.Step.{right};
ghost use Rattle.listing.specs.Places.{Table};
ghost use Rattle.agreeing.specs.Agreeing.{distance, past, Uses, Holds, Patchable, InOrder, Agreed};

use matching::matches;
use shape::{Shape, Stripe};
use solving::Gone;
use sourcing::sources;
use standing::all_even;
use walking::{above, below};

// How far it is to walk upward from column a to column b; m, which is too far, if one of them is no column.
fn apart(sh: Shape, a: usize, b: usize) -> usize
    requires { Good sh }
    ensures { result ≡ distance sh a b }
{
    if sh.n <= a {
        return sh.m;
    }
    if sh.n <= b {
        return sh.m;
    }
    below(sh.n, b, a)
}

// Where the symbol of height h of the column at `base` of the buffer stands, if there is such a height.
fn spot(sh: Shape, base: usize, h: usize) -> usize
    requires { (Good sh) × (base ≤ 262144) }
    ensures { result ≡ cond (ltb h sh.m) (base + place sh h 0 0) 0 }
{
    if h < sh.m {
        return base + sh.place(h, 0);
    }
    0
}

// Of a chain with first d columns to its left: the height of the symbol that its sum is compared with, first's or else the parity symbol's.
fn compared(sh: Shape, d: usize) -> usize
    ensures { result ≡ cond (ltb d sh.m) d 0 }
{
    if d < sh.m {
        return d;
    }
    0
}

// Where that symbol starts: first's in the buffer, the parity symbol of chain p in the stripe.
fn compared_at(x: Gone, p: usize, d: usize) -> usize
    requires { (Good x.shape) × (p < x.shape.n) × (x.one ≤ 262144) }
    ensures { result ≡ cond (ltb d x.shape.m) (x.one + place x.shape d 0 0) (place x.shape 0 p 0) }
{
    let sh = x.shape;
    if d < sh.m {
        return x.one + sh.place(d, 0);
    }
    sh.place(0, p)
}

// Whether chain p, from which no lost symbol is solved, holds: it has first's symbol of height d on its left and second's of height h on its right, if there are such heights.
fn agrees<'a>(
    s: &'a [u8],
    out: &'a [u8],
    table: &[u16; 32],
    x: Gone,
    p: usize,
    d: usize,
    h: usize,
) -> bool
    requires { (Patchable x s.now out.now) × (p < x.shape.n) × (¬ Uses x p) × (Table x.shape table.now) × (d ≡ distance x.shape x.first p) × (h ≡ distance x.shape p x.second) }
    ensures { Tells (Holds x s.now out.now p) result }
{
    let sh = x.shape;
    let u: &'a [u8] = if d < sh.m { out } else { s };
    let b = spot(sh, x.two, h);
    let mut list = listing::shifted(table, sh, p);
    listing::wrap(&mut list, sh, p);
    let from = sources(&mut list, sh, p, 1, compared(sh, d), 0, h, b);
    matches(sh.w, s, out, &list, from, u, compared_at(x, p, d))
}

// Whether chain p, from which no lost symbol is solved, holds; first is d columns to its left.
fn holds<'a>(s: &'a [u8], out: &'a [u8], table: &[u16; 32], x: Gone, p: usize, d: usize) -> bool
    requires { (Patchable x s.now out.now) × (p < x.shape.n) × (¬ Uses x p) × (Table x.shape table.now) × (d ≡ distance x.shape x.first p) }
    ensures { Tells (Holds x s.now out.now p) result }
{
    let shape = x.shape;
    let h = apart(shape, p, x.second);
    if d < shape.m || h < shape.m {
        return agrees(s, out, table, x, p, d, h);
    }
    all_even(Stripe { shape, bytes: s }, p, 1)
}

// Whether the chains that are less than `end` up from first hold.
fn between<'a>(s: &'a [u8], out: &'a [u8], table: &[u16; 32], x: Gone, end: usize) -> bool
    requires { (Patchable x s.now out.now) × (Table x.shape table.now) × (x.first < x.shape.n) × (end ≤ x.shape.n) × ((e : ℕ) → 1 ≤ e → e < end → ¬ Uses x (right x.shape.n x.first e)) }
    ensures { Tells ((e : ℕ) → 1 ≤ e → e < end → Holds x s.now out.now (right x.shape.n x.first e)) result }
{
    let mut p = x.first;
    for e in 1..end {
        p = above(x.shape.n, p, 1);
        if !holds(s, out, table, x, p, e) {
            return false;
        }
    }
    true
}

// How far up from first the chains begin that lie beyond the lost columns and have nothing staged; second, if there is one, is `end` up from first.
fn beyond(x: Gone, end: usize) -> usize
    requires { (x.shape.m ≤ 16) × (end ≤ 64) }
    ensures { result ≡ past x end }
{
    if x.second < x.shape.n {
        return end + x.shape.m;
    }
    x.shape.m
}

// Whether every chain from which no lost symbol is solved holds: those between first and second, or as far up as first's symbols reach, and those beyond.
pub fn agree<'a>(s: &'a [u8], out: &'a [u8], table: &[u16; 32], x: Gone) -> bool
    requires { (Patchable x s.now out.now) × (Table x.shape table.now) × (InOrder x) }
    ensures { Tells (Agreed x s.now out.now) result }
{
    let shape = x.shape;
    let stripe = Stripe { shape, bytes: s };
    if shape.n <= x.first {
        return all_even(stripe, 0, shape.n);
    }
    let end = apart(shape, x.first, x.second);
    if !between(s, out, table, x, end) {
        return false;
    }
    let from = beyond(x, end);
    let start = above(shape.n, x.first, from);
    all_even(stripe, start, shape.n + 1 - shape.m - from)
}
