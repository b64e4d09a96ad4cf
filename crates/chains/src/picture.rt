// The stripe as a grid of rows and columns, with one chain marked.
ghost use Rattle.std.specs.Prelude.{◌<◌};
ghost use Rattle.shape.specs.Good.{Good};
ghost use Rattle.chains.specs.Marks.{Marked};

use shape::Shape;
use std::fmt;

// What a symbol is to a chain: its parity symbol, one of its information symbols, with the height, or no symbol of it.
#[derive(Clone, Copy)]
pub(crate) enum Mark {
    Parity,
    Information(usize),
    Other,
}

// A mark is three characters wide.
impl fmt::Display for Mark {
    fn fmt<W: fmt::Write>(&self, f: &mut fmt::Formatter<W>) -> fmt::Result {
        match *self {
            Mark::Parity => write!(f, "  P"),
            Mark::Information(d) => write!(f, "{d:3}"),
            Mark::Other => write!(f, "  ."),
        }
    }
}

// What the symbol of a row in a column is to chain p.
fn mark_of(shape: Shape, p: usize, row: usize, column: usize) -> Mark
    requires { (Good shape) × (p < shape.n) × (row < shape.m) }
    ensures { Marked shape p row column result }
{
    let d = shape.height(row);
    let left = shape.left(p, d);
    let right = shape.right(p, d);
    match d {
        0 if column == p => Mark::Parity,
        0 => Mark::Other,
        _ if column == left => Mark::Information(d),
        _ if column == right => Mark::Information(d),
        _ => Mark::Other,
    }
}

// Prints the line of the columns' numbers.
fn heading(rt: &impl Print, shape: Shape) {
    let _ = print!(rt; "column");
    for column in 0..shape.n {
        let _ = print!(rt; "{column:3}");
    }
    let _ = println!(rt;);
}

// Prints the line of a row.
fn line(rt: &impl Print, shape: Shape, p: usize, row: usize)
    requires { (Good shape) × (p < shape.n) × (row < shape.m) }
{
    let _ = print!(rt; "row{row:3}");
    for column in 0..shape.n {
        let _ = print!(rt; "{}", mark_of(shape, p, row, column));
    }
    let _ = println!(rt;);
}

// Prints the stripe with chain p marked, and says in words what is marked.
pub(crate) fn picture(rt: &impl Print, shape: Shape, p: usize)
    requires { (Good shape) × (p < shape.n) }
{
    heading(rt, shape);
    for row in 0..shape.m {
        line(rt, shape, p, row);
    }
    let _ = println!(rt;
        "Chain {p}: the parity symbol of column {p}, P, is the XOR of the symbols marked by their heights."
    );
}

// Prints the stripe once for each chain, with an empty line between two.
pub(crate) fn every(rt: &impl Print, shape: Shape)
    requires { Good shape }
{
    for p in 0..shape.n {
        if 0 < p {
            let _ = println!(rt;);
        }
        picture(rt, shape, p);
    }
}
