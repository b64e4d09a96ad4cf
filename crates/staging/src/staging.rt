// Staging: the lost columns solved in the workspace, while the stripe stays as it is.
ghost use Rattle.std.specs.Prelude.{◌≡◌, ℕ, ◌≤◌, ◌<◌, length};
ghost use Rattle.listing.specs.Places.{Table};
ghost use Rattle.solving.specs.Outer.{Solved};
ghost use Rattle.staging.specs.Staging.{Stageable, Staged, SolvedIfLost};

use solving::{Gone, column_of, solve_alone, solve_first, solve_second};

// Solves a side's column, if it is lost.
fn alone_if_lost(s: &[u8], out: &mut [u8], table: &[u16; 32], x: Gone, side: usize)
    requires { (Stageable x s.now out.old) × (Table x.shape table.now) × (x.shape.m ≤ x.walk) × (side ≤ 1) }
    ensures { (length out.new ≡ length out.old) × ((v : ℕ → ℕ → ℕ → ℕ) → Solved x s.now v → SolvedIfLost x v side out.old out.new) }
{
    if column_of(x, side) < x.shape.n {
        solve_alone(s, out, table, x, side);
    }
}

// Solves two columns that ask for each other: the symbols that nothing asks for, and all that they ask for before them.
fn stage_pair(s: &[u8], out: &mut [u8], table: &[u16; 32], x: Gone)
    requires { (Stageable x s.now out.old) × (Table x.shape table.now) × (x.walk < x.shape.m) }
    ensures { (length out.new ≡ length out.old) × ((v : ℕ → ℕ → ℕ → ℕ) → Solved x s.now v → Staged x v out.new) }
{
    for d in (0..x.walk).rev() {
        solve_first(s, out, table, x, d);
        solve_second(s, out, table, x, d);
    }
}

// Solves the lost columns: together if the walk is short enough for them to ask for each other, and else each alone.
pub fn stage(s: &[u8], out: &mut [u8], table: &[u16; 32], x: Gone)
    requires { (Stageable x s.now out.old) × (Table x.shape table.now) }
    ensures { (length out.new ≡ length out.old) × ((v : ℕ → ℕ → ℕ → ℕ) → Solved x s.now v → Staged x v out.new) }
{
    if x.walk < x.shape.m {
        stage_pair(s, out, table, x);
    } else {
        alone_if_lost(s, out, table, x, 0);
        alone_if_lost(s, out, table, x, 1);
    }
}
