// The price list: what a shape costs, in symbol XORs, and what it reads.
ghost use Rattle.std.specs.Prelude.{◌≡◌, ◌-◌, ◌*◌, ◌≤◌};
ghost use Rattle.shape.specs.Good.{Good};
ghost use Rattle.stock.specs.Prices.{Prices, symbols_read};

use crate::Priced;
use answer::Refusal;
use shape::Shape;

// What it costs to make so many symbols, each the XOR of the 2m-2 others of its chain; whoever calls it has had
// `accept` answer Ok.
fn making(shape: Shape, symbols: usize) -> usize
    requires { (Good shape) × (symbols ≤ 64) }
    ensures { result ≡ symbols * (2 * shape.m - 3) }
{
    symbols * (2 * shape.m - 3)
}

// How many symbols are read to rebuild one column; whoever calls it has had `accept` answer Ok.
fn reading(shape: Shape) -> usize
    requires { Good shape }
    ensures { result ≡ symbols_read shape }
{
    2 * shape.m * (shape.m - 1) - 1
}

// The price list of a shape, or why the shape is refused.
pub fn prices(shape: Shape) -> Result<Priced, Refusal>
    ensures { Prices shape result }
{
    shape.accept()?;
    Ok(Priced {
        encode: making(shape, shape.n),
        one: making(shape, shape.m),
        two: making(shape, 2 * shape.m),
        reads: reading(shape),
    })
}
