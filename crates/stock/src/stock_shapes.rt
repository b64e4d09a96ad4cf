// The stock shapes, numbers 0 to 9.
ghost use Rattle.stock.specs.Stock.{Stock};

use answer::Refusal;
use shape::Shape;

// The stock shapes by their numbers.
const SHAPES: [Shape; 10] = [
    Shape { m: 2, n: 5, w: 512 },
    Shape {
        m: 2,
        n: 12,
        w: 512,
    },
    Shape { m: 3, n: 9, w: 512 },
    Shape {
        m: 3,
        n: 16,
        w: 1024,
    },
    Shape {
        m: 4,
        n: 13,
        w: 512,
    },
    Shape {
        m: 4,
        n: 16,
        w: 1024,
    },
    Shape {
        m: 6,
        n: 21,
        w: 256,
    },
    Shape {
        m: 8,
        n: 29,
        w: 256,
    },
    Shape {
        m: 12,
        n: 45,
        w: 64,
    },
    Shape {
        m: 16,
        n: 61,
        w: 64,
    },
];

// The stock shape of a number, or NoSuchStock for a number over 9.
pub fn stock(number: usize) -> Result<Shape, Refusal>
    ensures { Stock number result }
{
    SHAPES.get(number).copied().ok_or(Refusal::NoSuchStock)
}
