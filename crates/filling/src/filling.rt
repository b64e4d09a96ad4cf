// Fill: a lost column solved in the first m·w bytes of the answer buffer, with no room besides.
ghost use Rattle.std.specs.Prelude.{◌≡◌, ℕ, ◌≤◌, length};
ghost use Rattle.answer.specs.Answers.{number, First};
ghost use Rattle.listing.specs.Places.{Table};
ghost use Rattle.solving.specs.Outer.{Solved, Stores, Ready};
ghost use Rattle.filling.specs.Fill.{fill_table, Fill};
ghost use Rattle.filling.specs.Filling.{SideOf, narrowed, Fillable, ColumnIn};

use answer::{Answer, Refusal};
use rule::{Losses, beyond, twice};
use shape::Shape;
use solving::{Gone, solve_alone, solve_first, solve_second};
use staging::read;

// Asks what fill and choose ask, with an answer buffer of `room` bytes: the first refusal that applies refuses them.
pub(crate) fn accept(
    shape: Shape,
    stripe: &[u8],
    lost: Losses,
    wanted: usize,
    room: usize,
) -> Answer
    ensures { First (fill_table shape stripe.now lost wanted room) (number result) }
{
    shape.accept_stripe(stripe)?;
    if beyond(shape.n, lost) {
        return Err(Refusal::NoSuchPlace);
    }
    if shape.n <= wanted {
        return Err(Refusal::NoSuchPlace);
    }
    if twice(lost) {
        return Err(Refusal::SameColumn);
    }
    if room < shape.column_length() {
        return Err(Refusal::BadBuffer);
    }
    Ok(())
}

// The side of the column that is wanted; None if it survives.
fn side_of(x: Gone, wanted: usize) -> Option<usize>
    ensures { SideOf x wanted result }
{
    if wanted == x.first {
        return Some(0);
    }
    if wanted == x.second {
        return Some(1);
    }
    None
}

// The same lost columns in one column's room, a side's column at its start: a symbol that is asked for stands where
// the one that asks for it will.
fn narrow(x: Gone, side: usize) -> Gone
    requires { (side ≤ 1) × (x.walk ≤ 64) × (x.shape.w ≤ 4096) }
    ensures { result ≡ narrowed x side }
{
    let behind = x.walk * x.shape.w;
    Gone {
        one: side * behind,
        two: (1 - side) * behind,
        ..x
    }
}

// Solves a side's symbol of height d.
fn solve(s: &[u8], out: &mut [u8], table: &[u16; 32], x: Gone, side: usize, d: usize)
    requires { (Ready x side d s.now out.old) × (Table x.shape table.now) }
    ensures { (length out.new ≡ length out.old) × ((v : ℕ → ℕ → ℕ → ℕ) → Solved x s.now v → Stores x v side d out.old out.new) }
{
    if side == 0 {
        solve_first(s, out, table, x, d);
    } else {
        solve_second(s, out, table, x, d);
    }
}

// Solves a side's column where it asks for the other's. The way from a symbol comes back to its side two walks
// higher, so the starts are the heights below two walks.
fn fill_pair(s: &[u8], out: &mut [u8], table: &[u16; 32], x: Gone, side: usize)
    requires { (Fillable x side s.now out.old) × (Table x.shape table.now) }
    ensures { (length out.new ≡ length out.old) × ((v : ℕ → ℕ → ℕ → ℕ) → Solved x s.now v → ColumnIn x v side out.old out.new) }
{
    for d in (0..x.shape.m.min(2 * x.walk)).rev() {
        solve(s, out, table, x, side, d);
    }
}

// Solves a side's whole column, alone if the walk is too long for it to ask for the other's.
fn fill_column(s: &[u8], out: &mut [u8], x: Gone, side: usize)
    requires { Fillable x side s.now out.old }
    ensures { (length out.new ≡ length out.old) × ((v : ℕ → ℕ → ℕ → ℕ) → Solved x s.now v → ColumnIn x v side out.old out.new) }
{
    let table = listing::table(x.shape);
    if x.walk < x.shape.m {
        fill_pair(s, out, &table, x, side);
    } else {
        solve_alone(s, out, &table, x, side);
    }
}

// Puts a lost column into the first m·w bytes of the answer buffer; the rest of it, and all of it where the column
// survives, stays as it is.
pub fn fill(shape: Shape, stripe: &[u8], lost: Losses, wanted: usize, answer: &mut [u8]) -> Answer
    ensures { Fill shape stripe.now lost wanted answer.old result answer.new }
{
    accept(shape, stripe, lost, wanted, answer.len())?;
    let x = read(shape, lost);
    if let Some(side) = side_of(x, wanted) {
        fill_column(stripe, answer, narrow(x, side), side);
    }
    Ok(())
}
