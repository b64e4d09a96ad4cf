// One symbol stored, and the raw store that stores one and touches nothing else.
// A symbol goes by whole blocks, which pass through registers; what is left of it goes byte by byte.
#![tactic(auto)]

ghost use Rattle.std.specs.Prelude.{◌≡◌, ◌+◌, ◌%◌, ◌≤◌, ◌<◌, length, get_or};
ghost use Rattle.xor.specs.Spanned.{Spanned};
ghost use Rattle.shape.specs.Good.{Good, size};
ghost use Rattle.storing.specs.Set.{Set};
ghost use Rattle.storing.specs.Store.{RawStore};

use answer::{Answer, Refusal};
use block::LONGEST;
use shape::Shape;
use xor::copy;

// Stores the first `whole` bytes of a symbol, a number of whole blocks, in the stripe from `at` on.
// (A `while`, as a `for` over the blocks would count them besides the bytes.)
fn store_blocks(symbol: &[u8], stripe: &mut [u8], at: usize, whole: usize)
    requires { (whole ≤ length symbol.now) × (at + whole ≤ length stripe.old) × (whole % 128 ≡ 0) }
    ensures { Spanned (λ t. get_or symbol.now t 0) stripe.old stripe.new at whole }
{
    let mut t = 0;
    while t < whole {
        let acc: [u8; LONGEST] = block::get(symbol, t, LONGEST);
        block::put(&acc, stripe, at + t, LONGEST);
        t += LONGEST;
    }
}

// Stores a symbol of a height in a column, and touches nothing else; whoever calls it asks within a good shape and
// its stripe.
pub fn store(shape: Shape, stripe: &mut [u8], height: usize, column: usize, symbol: &[u8])
    requires { (Good shape) × (length stripe.old ≡ size shape) × (height < shape.m) × (column < shape.n) × (length symbol.now ≡ shape.w) }
    ensures { Set shape stripe.old height column symbol.now stripe.new }
{
    let at = shape.place(height, column);
    let len = symbol.len();
    let whole = len - len % LONGEST;
    store_blocks(symbol, stripe, at, whole);
    if whole < len {
        copy(&symbol[whole..], stripe, at + whole);
    }
}

// Replaces the symbol of any row, and leaves the parity as it is.
pub fn raw_store(
    shape: Shape,
    stripe: &mut [u8],
    column: usize,
    row: usize,
    symbol: &[u8],
) -> Answer
    ensures { RawStore shape stripe.old column row symbol.now result stripe.new }
{
    shape.accept_stripe(stripe)?;
    if shape.n <= column || shape.m <= row {
        return Err(Refusal::NoSuchPlace);
    }
    if symbol.len() != shape.w {
        return Err(Refusal::BadBuffer);
    }
    let height = shape.height(row);
    store(shape, stripe, height, column, symbol);
    Ok(())
}
