// What is on offer: the stock shapes by their numbers, and what a shape costs.
#![tactic(auto)]

mod price_list;
mod stock_shapes;

pub use price_list::prices;
pub use stock_shapes::stock;

// A shape's price list: what encoding and rebuilding cost in symbol XORs, and the symbols read for one column.
#[derive(Clone, Copy)]
pub struct Priced {
    pub encode: usize,
    pub one: usize,
    pub two: usize,
    pub reads: usize,
}
