// The losses read: which lost column is first, which is second, and how far it is from one to the other.
ghost use Rattle.std.specs.Prelude.{◌≡◌, ◌≢◌, ◌≤◌, ◌<◌};
ghost use Rattle.xor.specs.Tells.{Tells};
ghost use Rattle.shape.specs.Good.{Good};
ghost use Rattle.rule.specs.declared.Losses.TheVariants.{Two};
ghost use Rattle.rule.specs.Losses.{Beyond, Twice};
ghost use Rattle.rule.specs.Outer.{first, walk};
ghost use Rattle.staging.specs.Reading.{Read};

use rule::Losses;
use shape::Shape;
use solving::Gone;
use walking::below;

// How far it is to walk upward, modulo n, from column a to column b.
fn upward(n: usize, a: usize, b: usize) -> usize
    requires { (a < n) × (b < n) × (n ≤ 64) }
    ensures { result ≡ walk n a b }
{
    below(n, b, a)
}

// Whether a is the first of two columns: the walk from it up to the other is the shorter, or both are as long and its
// number is smaller.
fn leads(n: usize, a: usize, b: usize) -> bool
    requires { (a < n) × (b < n) × (n ≤ 64) × (a ≢ b) }
    ensures { Tells (first n a b ≡ a) result }
{
    let up = upward(n, a, b);
    let back = upward(n, b, a);
    if up < back {
        return true;
    }
    if back < up {
        return false;
    }
    a < b
}

// Two lost columns, in the order in which the outer-chain order names them.
fn order(shape: Shape, a: usize, b: usize) -> Gone
    requires { (Good shape) × (a < shape.n) × (b < shape.n) × (a ≢ b) }
    ensures { Read shape (Two a b) result }
{
    let two = shape.column_length();
    if leads(shape.n, a, b) {
        let walk = upward(shape.n, a, b);
        return Gone {
            shape,
            first: a,
            second: b,
            walk,
            one: 0,
            two,
        };
    }
    let walk = upward(shape.n, b, a);
    Gone {
        shape,
        first: b,
        second: a,
        walk,
        one: 0,
        two,
    }
}

// The lost columns in the outer-chain order; n is no column, and m is too far to walk.
pub fn read(shape: Shape, lost: Losses) -> Gone
    requires { (Good shape) × (¬ Beyond shape.n lost) × (¬ Twice lost) }
    ensures { Read shape lost result }
{
    let n = shape.n;
    let m = shape.m;
    let two = shape.column_length();
    match lost {
        Losses::None => Gone {
            shape,
            first: n,
            second: n,
            walk: m,
            one: 0,
            two,
        },
        Losses::One(a) => Gone {
            shape,
            first: a,
            second: n,
            walk: m,
            one: 0,
            two,
        },
        Losses::Two(a, b) => order(shape, a, b),
    }
}
