// The outer-chain order: two functions, one per lost column, that call each other with rising height.
ghost use Rattle.std.specs.Prelude.{◌≡◌, cond, ℕ, ◌+◌, ◌≤◌, ◌<◌, ltb, length, get_or};
ghost use Rattle.xor.specs.Xor.{◌⊕◌};
ghost use Rattle.xor.specs.Spanned.{Spanned};
ghost use Rattle.shape.specs.Good.{Good, size};
ghost use Rattle.shape.specs.Place.{place, byte};
ghost use Rattle.listing.specs.Places.{Table};
ghost use Rattle.sourcing.specs.Sources.{besides};
ghost use Rattle.solving.specs.Outer.{Solved, Stores, Ready};
ghost use Rattle.summing.specs.Sums.{Apart};

use crate::Gone;
use shape::Shape;
use sourcing::sources;
use summing::sum_symbol;
use walking::{above, below};

// Stores at `at` what chain p gives without its symbols of heights d and h on a side, with the symbol of the buffer
// at b in the place of the one of height h.
pub(crate) fn own(
    s: &[u8],
    out: &mut [u8],
    table: &[u16; 32],
    sh: Shape,
    p: usize,
    side: usize,
    d: usize,
    h: usize,
    b: usize,
    at: usize,
)
    requires { (Good sh) × (length s.now ≡ size sh) × (p < sh.n) × (side ≤ 1) × (d < sh.m) × (d < h) × (Table sh table.now) × (at + sh.w ≤ length out.old) × (h < sh.m → (b + sh.w ≤ length out.old) × (b + sh.w ≤ 262144) × Apart at b sh.w) }
    ensures { Spanned (λ t. besides sh.m sh.n (byte sh s.now t) p side d side h ⊕ cond (ltb h sh.m) (get_or out.old (b + t) 0) 0) out.old out.new at sh.w }
{
    let mut list = listing::shifted(table, sh, p);
    listing::wrap(&mut list, sh, p);
    let from = sources(&mut list, sh, p, side, d, side, h, b);
    sum_symbol(sh.w, s, out, &list, from, at);
}

// Stores first's symbol of height d, and before it those above it that it asks for.
#[cycle(solve_first_solve_second)]
pub fn solve_first(s: &[u8], out: &mut [u8], table: &[u16; 32], x: Gone, d: usize)
    requires { (Ready x 0 d s.now out.old) × (Table x.shape table.now) }
    ensures { (length out.new ≡ length out.old) × ((v : ℕ → ℕ → ℕ → ℕ) → Solved x s.now v → Stores x v 0 d out.old out.new) }
{
    let sh = x.shape;
    let h = d + x.walk;
    let p = below(sh.n, x.first, d);
    let at = x.one + sh.place(d, 0);
    if h < sh.m {
        solve_second(s, out, table, x, h);
        let b = x.two + sh.place(h, 0);
        own(s, out, table, x.shape, p, 0, d, h, b, at);
    } else {
        own(s, out, table, x.shape, p, 0, d, h, 0, at);
    }
}

// Stores second's symbol of height d, and before it those above it that it asks for.
#[cycle(solve_first_solve_second)]
pub fn solve_second(s: &[u8], out: &mut [u8], table: &[u16; 32], x: Gone, d: usize)
    requires { (Ready x 1 d s.now out.old) × (Table x.shape table.now) }
    ensures { (length out.new ≡ length out.old) × ((v : ℕ → ℕ → ℕ → ℕ) → Solved x s.now v → Stores x v 1 d out.old out.new) }
{
    let sh = x.shape;
    let h = d + x.walk;
    let p = above(sh.n, x.second, d);
    let at = x.two + sh.place(d, 0);
    if h < sh.m {
        solve_first(s, out, table, x, h);
        let b = x.one + sh.place(h, 0);
        own(s, out, table, x.shape, p, 1, d, h, b, at);
    } else {
        own(s, out, table, x.shape, p, 1, d, h, 0, at);
    }
}
