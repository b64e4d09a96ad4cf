// The walk along a chain, and the columns left and right of one: which they are, without a division.
#![tactic(auto)]

ghost use Rattle.std.specs.Prelude.{◌≡◌, ◌-◌, ◌≤◌, ◌<◌};
ghost use Rattle.shape.specs.Good.{Good};
ghost use Rattle.shape.specs.Placed.{Stepped};
ghost use Rattle.shape.specs.Step.{left, right};
ghost use Rattle.walking.specs.Walk.{Ways, Walks};

use shape::Shape;

// Where the symbols of a chain stand: below height `end` in the columns p - d and p + d, from there on in l and r and
// then a column further apart each height. The two of the top height start at x and y, the parity symbol at `at`.
#[derive(Clone, Copy)]
pub struct Walk {
    pub shape: Shape,
    pub p: usize,
    pub top: usize,
    pub l: usize,
    pub r: usize,
    pub end: usize,
    pub x: usize,
    pub y: usize,
    pub at: usize,
    ghost walks: { Walks shape p top l r end x y at },
}

// The walk of chain p that from height `end` on goes on from the columns l and r, with its top pair in columns a and
// b; `along` finds these for it.
fn walk_through(sh: Shape, p: usize, l: usize, r: usize, end: usize, a: usize, b: usize) -> Walk
    requires { (Good sh) × (Ways sh p p p 0 1 end) × (Ways sh p l r end end (sh.m - 1)) × (a ≡ left sh.n p (sh.m - 1)) × (b ≡ right sh.n p (sh.m - 1)) }
    ensures { (result.shape ≡ sh) × (result.p ≡ p) }
{
    let top = sh.m - 1;
    Walk {
        shape: sh,
        p,
        top,
        l,
        r,
        end,
        x: sh.place(top, a),
        y: sh.place(top, b),
        at: sh.place(0, p),
    }
}

// The walk of a chain: with a wrap on the left, with none, or with one on the right.
// Whoever calls it has had `accept` answer Ok, and asks for a chain of the shape.
pub fn along(sh: Shape, p: usize) -> Walk
    requires { (Good sh) × (p < sh.n) }
    ensures { (result.shape ≡ sh) × (result.p ≡ p) }
{
    let n = sh.n;
    let top = sh.m - 1;
    if p < top {
        return walk_through(sh, p, n - 1, p + p + 1, p + 1, p + n - top, p + top);
    }
    if p + top < n {
        return walk_through(sh, p, p, p, top, p - top, p + top);
    }
    let past = n - p;
    walk_through(sh, p, p - past, 0, past, p - top, p + top - n)
}

// The column d to the left of c, modulo n; whoever calls it has columns of a set of at most 64.
pub fn below(n: usize, c: usize, d: usize) -> usize
    requires { (c < n) × (d < n) × (n ≤ 64) }
    ensures { Stepped n (left n c d) result }
{
    if c < d {
        return c + n - d;
    }
    c - d
}

// The column d to the right of c, modulo n, in the same way.
pub fn above(n: usize, c: usize, d: usize) -> usize
    requires { (c < n) × (d < n) × (n ≤ 64) }
    ensures { Stepped n (right n c d) result }
{
    let e = c + d;
    if e < n {
        return e;
    }
    e - n
}
