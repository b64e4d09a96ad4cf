// The calls that need no stripe: the price list and the stock shapes.
ghost use Rattle.shape.specs.Good.{shape};
ghost use Rattle.capi.specs.Told.{PricesTold, StockTold};

use answer::number;
use shape::Shape;
use stock::{prices, stock};

// The price list of a shape, in symbol XORs: encode, one column, two columns; and the symbols read for one column.
pub fn bangsorut_prices(m: usize, n: usize, w: usize, list: &mut [usize; 4]) -> usize
    ensures { PricesTold (shape m n w) result list.new }
{
    let report = prices(Shape { m, n, w });
    *list = match report {
        Ok(list) => [list.encode, list.one, list.two, list.reads],
        Err(_) => [0, 0, 0, 0],
    };
    number(report)
}

// The stock shape of a number: m, n and w.
pub fn bangsorut_stock(which: usize, measures: &mut [usize; 3]) -> usize
    ensures { StockTold which result measures.new }
{
    let report = stock(which);
    *measures = match report {
        Ok(Shape { m, n, w }) => [m, n, w],
        Err(_) => [0, 0, 0],
    };
    number(report)
}
