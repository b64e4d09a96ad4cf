// Lost columns that are too far apart to ask for each other, or a single one: each is solved alone.
ghost use Rattle.std.specs.Prelude.{◌≡◌, ℕ, ◌<◌, length};
ghost use Rattle.shape.specs.Good.{Good};
ghost use Rattle.shape.specs.Placed.{Stepped};
ghost use Rattle.listing.specs.Places.{Table};
ghost use Rattle.solving.specs.Outer.{column_of, base_of, chain_of, Solved};
ghost use Rattle.solving.specs.Alone.{Lone, SolvedAlone};

use crate::Gone;
use crate::outer::own;
use walking::{above, below};

// A side's column: first's or second's.
pub fn column_of(x: Gone, side: usize) -> usize
    ensures { result ≡ column_of x side }
{
    if side == 0 {
        return x.first;
    }
    x.second
}

// Where a side's column begins in the buffer.
fn base_of(x: Gone, side: usize) -> usize
    ensures { result ≡ base_of x side }
{
    if side == 0 {
        return x.one;
    }
    x.two
}

// The chain from which a side's symbol of height d is solved.
fn chain_of(x: Gone, side: usize, d: usize) -> usize
    requires { (Good x.shape) × (column_of x side < x.shape.n) × (d < x.shape.m) }
    ensures { Stepped x.shape.n (chain_of x side d) result }
{
    if side == 0 {
        return below(x.shape.n, x.first, d);
    }
    above(x.shape.n, x.second, d)
}

// Stores a side's whole column, whose symbols ask for none of the other's.
pub fn solve_alone(s: &[u8], out: &mut [u8], table: &[u16; 32], x: Gone, side: usize)
    requires { (Lone x side s.now out.old) × (Table x.shape table.now) }
    ensures { (length out.new ≡ length out.old) × ((v : ℕ → ℕ → ℕ → ℕ) → Solved x s.now v → SolvedAlone x v side out.old out.new) }
{
    for d in (0..x.shape.m).rev() {
        let p = chain_of(x, side, d);
        let h = d + x.walk;
        let at = base_of(x, side) + x.shape.place(d, 0);
        own(s, out, table, x.shape, p, side, d, h, 0, at);
    }
}
