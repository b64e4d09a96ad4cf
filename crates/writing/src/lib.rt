// The small write: one information symbol replaced, and its change XORed into its two parity symbols.
#![tactic(auto)]

ghost use Rattle.std.specs.Prelude.{◌≡◌, ◌⊎◌, ◌+◌, ◌-◌, ◌%◌, ◌≤◌, ◌<◌, length};
ghost use Rattle.xor.specs.Spanned.{Spanned, change_of};
ghost use Rattle.shape.specs.Good.{Good, size};
ghost use Rattle.writing.specs.Carried.{Carried};
ghost use Rattle.writing.specs.Write.{Written, SmallWrite};

use answer::{Answer, Refusal};
use block::LONGEST;
use shape::Shape;
use storing::store;
use xor::change;

// XORs into the bytes at `at` the difference between those at `from` and the first `whole` of x, a number of whole
// blocks; `carry` asks for places apart. (A `while`, as a `for` over the blocks would count them besides the bytes.)
fn change_blocks(s: &mut [u8], at: usize, from: usize, x: &[u8], whole: usize)
    requires { (at + whole ≤ length s.old) × (from + whole ≤ length s.old) × (whole ≤ length x.now) × (whole % 128 ≡ 0) × ((at + whole ≤ from) ⊎ (from + whole ≤ at)) }
    ensures { Spanned (change_of s.old at from x.now) s.old s.new at whole }
{
    let mut t = 0;
    while t < whole {
        let mut acc = block::both::<LONGEST>(s, from + t, x, t, LONGEST);
        block::add(&mut acc, s, at + t, LONGEST);
        block::put(&acc, s, at + t, LONGEST);
        t += LONGEST;
    }
}

// XORs into the parity symbol of a chain the change that an information symbol is about to take; `replace` asks
// within a good shape.
fn carry(shape: Shape, stripe: &mut [u8], height: usize, column: usize, chain: usize, symbol: &[u8])
    requires { (Good shape) × (length stripe.old ≡ size shape) × (1 ≤ height) × (height < shape.m) × (column < shape.n) × (chain < shape.n) × (length symbol.now ≡ shape.w) }
    ensures { Carried shape stripe.old height column chain symbol.now stripe.new }
{
    let parity = shape.place(0, chain);
    let from = shape.place(height, column);
    let len = symbol.len();
    let whole = len - len % LONGEST;
    change_blocks(stripe, parity, from, symbol, whole);
    if whole < len {
        change(stripe, parity + whole, from + whole, &symbol[whole..]);
    }
}

// Replaces an information symbol and XORs the change into the parity of its two chains; `small_write` has asked for
// the refusals.
fn replace(shape: Shape, stripe: &mut [u8], column: usize, row: usize, symbol: &[u8])
    requires { (Good shape) × (length stripe.old ≡ size shape) × (column < shape.n) × (row < shape.m - 1) × (length symbol.now ≡ shape.w) }
    ensures { Written shape stripe.old column row symbol.now stripe.new }
{
    let height = shape.height(row);
    let left = shape.left(column, height);
    let right = shape.right(column, height);
    carry(shape, stripe, height, column, left, symbol);
    carry(shape, stripe, height, column, right, symbol);
    store(shape, stripe, height, column, symbol);
}

// Replaces an information symbol and XORs the change into its two parity symbols, so that each chain differs by the
// same bytes as before.
pub fn small_write(
    shape: Shape,
    stripe: &mut [u8],
    column: usize,
    row: usize,
    symbol: &[u8],
) -> Answer
    ensures { SmallWrite shape stripe.old column row symbol.now result stripe.new }
{
    shape.accept_stripe(stripe)?;
    if shape.n <= column || shape.m - 1 <= row {
        return Err(Refusal::NoSuchPlace);
    }
    if symbol.len() != shape.w {
        return Err(Refusal::BadBuffer);
    }
    replace(shape, stripe, column, row, symbol);
    Ok(())
}
