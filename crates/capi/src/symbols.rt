// The calls on one symbol or one column: small write, raw store, column.
ghost use Rattle.shape.specs.Good.{shape};
ghost use Rattle.writing.specs.Write.{SmallWrite};
ghost use Rattle.storing.specs.Store.{RawStore};
ghost use Rattle.capi.specs.Told.{Numbered};
ghost use Rattle.capi.specs.Lies.{ColumnTold};

use answer::number;
use shape::Shape;
use storing::raw_store;
use writing::small_write;

// Replaces an information symbol and XORs the change into its two parity symbols.
pub fn bangsorut_small_write(
    m: usize,
    n: usize,
    w: usize,
    stripe: &mut [u8],
    column: usize,
    row: usize,
    symbol: &[u8],
) -> usize
    ensures { Numbered (SmallWrite (shape m n w) stripe.old column row symbol.now) result stripe.new }
{
    number(small_write(Shape { m, n, w }, stripe, column, row, symbol))
}

// Replaces the symbol of any row, and leaves the parity as it is.
pub fn bangsorut_raw_store(
    m: usize,
    n: usize,
    w: usize,
    stripe: &mut [u8],
    column: usize,
    row: usize,
    symbol: &[u8],
) -> usize
    ensures { Numbered (RawStore (shape m n w) stripe.old column row symbol.now) result stripe.new }
{
    number(raw_store(Shape { m, n, w }, stripe, column, row, symbol))
}

// Where in the stripe a column lies: its start and its length, zeros where the request is refused.
pub fn bangsorut_column(
    m: usize,
    n: usize,
    w: usize,
    stripe: &[u8],
    column: usize,
    part: &mut [usize; 2],
)
    ensures { ColumnTold (shape m n w) stripe.entry column part.new }
{
    let handed = handing::column(Shape { m, n, w }, stripe, column);
    let length = handed.len();
    *part = [column * length, length];
}
