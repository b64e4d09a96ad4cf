// The exports for C: each is the function of capi that has its name, under the same promise. No crate can stand on a
// static library, so capi is apart.
#![tactic(auto)]

ghost use Rattle.std.specs.Prelude.{length};
ghost use Rattle.shape.specs.Good.{shape};
ghost use Rattle.rule.specs.Losses.{named};
ghost use Rattle.encoding.specs.Encode.{Encode};
ghost use Rattle.storing.specs.Store.{RawStore};
ghost use Rattle.writing.specs.Write.{SmallWrite};
ghost use Rattle.filling.specs.Fill.{Fill};
ghost use Rattle.capi.specs.Told.{Numbered, CheckTold, LocateTold, RebuildTold, PricesTold, StockTold};
ghost use Rattle.capi.specs.Lies.{ColumnTold, ChooseTold};

// Sets every parity symbol of the stripe.
#[unsafe(no_mangle)]
pub extern "C" fn bangsorut_encode(m: usize, n: usize, w: usize, stripe: &mut [u8]) -> usize
    ensures { Numbered (Encode (shape m n w) stripe.old) result stripe.new }
{
    capi::bangsorut_encode(m, n, w, stripe)
}

// How many chains of the stripe are broken, and by how many bits in all.
#[unsafe(no_mangle)]
pub extern "C" fn bangsorut_check(
    m: usize,
    n: usize,
    w: usize,
    stripe: &[u8],
    counts: &mut [usize; 2],
) -> usize
    ensures { CheckTold (shape m n w) stripe.now result counts.new }
{
    capi::bangsorut_check(m, n, w, stripe, counts)
}

// Which column of the stripe, if any, explains every chain that is broken.
#[unsafe(no_mangle)]
pub extern "C" fn bangsorut_locate(
    m: usize,
    n: usize,
    w: usize,
    stripe: &[u8],
    found: &mut [usize; 2],
) -> usize
    ensures { LocateTold (shape m n w) stripe.now result found.new }
{
    capi::bangsorut_locate(m, n, w, stripe, found)
}

// Replaces an information symbol and XORs the change into its two parity symbols.
#[unsafe(no_mangle)]
pub extern "C" fn bangsorut_small_write(
    m: usize,
    n: usize,
    w: usize,
    stripe: &mut [u8],
    column: usize,
    row: usize,
    symbol: &[u8],
) -> usize
    ensures { Numbered (SmallWrite (shape m n w) stripe.old column row symbol.now) result stripe.new }
{
    capi::bangsorut_small_write(m, n, w, stripe, column, row, symbol)
}

// Replaces the symbol of any row, and leaves the parity as it is.
#[unsafe(no_mangle)]
pub extern "C" fn bangsorut_raw_store(
    m: usize,
    n: usize,
    w: usize,
    stripe: &mut [u8],
    column: usize,
    row: usize,
    symbol: &[u8],
) -> usize
    ensures { Numbered (RawStore (shape m n w) stripe.old column row symbol.now) result stripe.new }
{
    capi::bangsorut_raw_store(m, n, w, stripe, column, row, symbol)
}

// Where in the stripe a column lies: its start and its length, zeros where the request is refused.
#[unsafe(no_mangle)]
pub extern "C" fn bangsorut_column(
    m: usize,
    n: usize,
    w: usize,
    stripe: &[u8],
    column: usize,
    part: &mut [usize; 2],
)
    ensures { ColumnTold (shape m n w) stripe.entry column part.new }
{
    capi::bangsorut_column(m, n, w, stripe, column, part);
}

// Writes the lost columns of the stripe, and clears the workspace.
#[unsafe(no_mangle)]
pub extern "C" fn bangsorut_rebuild(
    m: usize,
    n: usize,
    w: usize,
    count: usize,
    a: usize,
    b: usize,
    stripe: &mut [u8],
    workspace: &mut [u8],
) -> usize
    ensures { RebuildTold (shape m n w) (named count a b) stripe.old (length workspace.old) result stripe.new workspace.new }
{
    capi::bangsorut_rebuild(m, n, w, count, a, b, stripe, workspace)
}

// Puts the wanted column, if it is lost, into the answer buffer.
#[unsafe(no_mangle)]
pub extern "C" fn bangsorut_fill(
    m: usize,
    n: usize,
    w: usize,
    stripe: &[u8],
    count: usize,
    a: usize,
    b: usize,
    wanted: usize,
    buffer: &mut [u8],
) -> usize
    ensures { Numbered (Fill (shape m n w) stripe.now (named count a b) wanted buffer.old) result buffer.new }
{
    capi::bangsorut_fill(m, n, w, stripe, count, a, b, wanted, buffer)
}

// Where the wanted column lies: 0 in the stripe or 1 in the answer buffer, its start there and its length; zeros
// where fill is refused.
#[unsafe(no_mangle)]
pub extern "C" fn bangsorut_choose<'a>(
    m: usize,
    n: usize,
    w: usize,
    stripe: &'a [u8],
    count: usize,
    a: usize,
    b: usize,
    wanted: usize,
    buffer: &'a [u8],
    part: &mut [usize; 3],
)
    ensures { ChooseTold (shape m n w) stripe.entry (named count a b) wanted buffer.entry part.new }
{
    capi::bangsorut_choose(m, n, w, stripe, count, a, b, wanted, buffer, part);
}

// The price list of a shape, in symbol XORs: encode, one column, two columns; and the symbols read for one column.
#[unsafe(no_mangle)]
pub extern "C" fn bangsorut_prices(m: usize, n: usize, w: usize, list: &mut [usize; 4]) -> usize
    ensures { PricesTold (shape m n w) result list.new }
{
    capi::bangsorut_prices(m, n, w, list)
}

// The stock shape of a number: m, n and w.
#[unsafe(no_mangle)]
pub extern "C" fn bangsorut_stock(which: usize, measures: &mut [usize; 3]) -> usize
    ensures { StockTold which result measures.new }
{
    capi::bangsorut_stock(which, measures)
}
