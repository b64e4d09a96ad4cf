// Every pair of columns lost and rebuilt, for three codes with three lengths of symbol; and every single column, and
// none. One line a shape, with what was counted; each run starts from a stripe with other bytes in the lost columns
// and a workspace full of old ones. A write that fails is passed over, and the next is tried: the status says nothing
// of it.
#![tactic(auto)]

ghost use Rattle.std.specs.Prelude.{◌≡◌, length};
ghost use Rattle.shape.specs.Good.{Good, size};

use crate::trying::{altered, none, pairs, singles};
use shape::Shape;
use trial::{pattern, sum};

mod tally;
mod trying;

// The most bytes of a stripe.
const LARGEST_STRIPE: usize = 65536;

// As many bytes as half of the largest stripe has. No workspace has more: it is two columns, of which a stripe has at
// least five.
const ROOM: usize = 32768;

// The most bytes of a symbol.
const LONGEST_SYMBOL: usize = 4096;

// Rebuilds an encoded stripe in every way, and writes what came of it.
fn rebuilt(
    rt: &impl Print,
    shape: Shape,
    whole: &[u8],
    given: &mut [u8],
    stripe: &mut [u8],
    work: &mut [u8],
    other: &[u8],
)
    requires { (Good shape) × (length whole.now ≡ size shape) × (length given.old ≡ size shape) × (length stripe.old ≡ size shape) }
{
    let none = none(shape, whole, stripe, work);
    let singles = singles(shape, whole, given, stripe, work, other);
    let altered = altered(shape, whole, given, stripe, work, other);
    let pairs = pairs(shape, whole, given, stripe, work, other);
    let _ = print!(rt;
        ", none lost {none}, one lost {singles}, one lost and one altered {altered}, two lost {pairs}"
    );
}

// Writes the line of a shape. It has three stripes, a workspace of 2·m·w bytes and a symbol to put into lost columns.
fn line(rt: &impl Print, shape: Shape)
    requires { Good shape }
{
    let Shape { m, n, w } = shape;
    let len = shape.stripe_length();
    let room = 2 * shape.column_length();
    let mut whole = [0; LARGEST_STRIPE];
    let mut given = [0; LARGEST_STRIPE];
    let mut stripe = [0; LARGEST_STRIPE];
    let mut work = [0; ROOM];
    let mut other = [0; LONGEST_SYMBOL];
    let whole = &mut whole[..len];
    let other = &mut other[..w];
    pattern(whole, 1);
    let _ = encoding::encode(shape, whole);
    pattern(other, 3);
    let _ = print!(rt; "{m} {n} {w}: sum {}", sum(whole));
    rebuilt(
        rt,
        shape,
        whole,
        &mut given[..len],
        &mut stripe[..len],
        &mut work[..room],
        other,
    );
    let _ = println!(rt;);
}

// Writes the lines of a code, with symbols of one byte, of 16 and a byte, and of 128 and two.
fn lines(rt: &impl Print, m: usize, n: usize) {
    for w in [1, 17, 130] {
        let shape = Shape { m, n, w };
        if let Ok(()) = shape.accept() {
            line(rt, shape);
        }
    }
}

fn main(rt: HostRuntime) {
    let _ = println!(rt;
        "m n w: runs/answered 0, or 9 where a byte is altered/stripe as encoded, or as given/workspace all zero"
    );
    lines(&rt, 2, 5);
    lines(&rt, 3, 9);
    lines(&rt, 4, 13);
}
