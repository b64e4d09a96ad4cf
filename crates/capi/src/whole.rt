// The calls on a whole stripe: encode, check, locate.
ghost use Rattle.shape.specs.Good.{shape};
ghost use Rattle.encoding.specs.Encode.{Encode};
ghost use Rattle.capi.specs.Told.{Numbered, CheckTold, LocateTold};

use answer::number;
use checking::{Checked, check};
use encoding::encode;
use locating::locate;
use shape::Shape;

// Sets every parity symbol of the stripe.
pub fn bangsorut_encode(m: usize, n: usize, w: usize, stripe: &mut [u8]) -> usize
    ensures { Numbered (Encode (shape m n w) stripe.old) result stripe.new }
{
    number(encode(Shape { m, n, w }, stripe))
}

// How many chains of the stripe are broken, and by how many bits in all.
pub fn bangsorut_check(
    m: usize,
    n: usize,
    w: usize,
    stripe: &[u8],
    counts: &mut [usize; 2],
) -> usize
    ensures { CheckTold (shape m n w) stripe.now result counts.new }
{
    let report = check(Shape { m, n, w }, stripe);
    *counts = match report {
        Ok(Checked { broken, bits }) => [broken, bits],
        Err(_) => [0, 0],
    };
    number(report)
}

// Which column of the stripe, if any, explains every chain that is broken: 0 sound, 1 one column, 2 more; and the
// column, or 0.
pub fn bangsorut_locate(
    m: usize,
    n: usize,
    w: usize,
    stripe: &[u8],
    found: &mut [usize; 2],
) -> usize
    ensures { LocateTold (shape m n w) stripe.now result found.new }
{
    let report = locate(Shape { m, n, w }, stripe);
    let (kind, column) = match report {
        Ok(damage) => damage.numbers(),
        Err(_) => (0, 0),
    };
    *found = [kind, column];
    number(report)
}
