// The calls that are told which columns are lost, `count` of a and b: rebuild, fill, choose.
ghost use Rattle.std.specs.Prelude.{length};
ghost use Rattle.shape.specs.Good.{shape};
ghost use Rattle.rule.specs.Losses.{named};
ghost use Rattle.filling.specs.Fill.{Fill};
ghost use Rattle.capi.specs.Told.{Numbered, RebuildTold};
ghost use Rattle.capi.specs.Lies.{ChooseTold};

use answer::number;
use filling::{choose, fill};
use rebuild::rebuild;
use rule::{is_lost, named};
use shape::Shape;

// Writes the lost columns of the stripe, and clears the workspace.
pub fn bangsorut_rebuild(
    m: usize,
    n: usize,
    w: usize,
    count: usize,
    a: usize,
    b: usize,
    stripe: &mut [u8],
    workspace: &mut [u8],
) -> usize
    ensures { RebuildTold (shape m n w) (named count a b) stripe.old (length workspace.old) result stripe.new workspace.new }
{
    let lost = named(count, a, b);
    number(rebuild(Shape { m, n, w }, lost, stripe, workspace))
}

// Puts the wanted column, if it is lost, into the answer buffer.
pub fn bangsorut_fill(
    m: usize,
    n: usize,
    w: usize,
    stripe: &[u8],
    count: usize,
    a: usize,
    b: usize,
    wanted: usize,
    buffer: &mut [u8],
) -> usize
    ensures { Numbered (Fill (shape m n w) stripe.now (named count a b) wanted buffer.old) result buffer.new }
{
    let lost = named(count, a, b);
    number(fill(Shape { m, n, w }, stripe, lost, wanted, buffer))
}

// Where the wanted column lies: 0 in the stripe or 1 in the answer buffer, its start there and its length; zeros
// where fill is refused.
pub fn bangsorut_choose<'a>(
    m: usize,
    n: usize,
    w: usize,
    stripe: &'a [u8],
    count: usize,
    a: usize,
    b: usize,
    wanted: usize,
    buffer: &'a [u8],
    part: &mut [usize; 3],
)
    ensures { ChooseTold (shape m n w) stripe.entry (named count a b) wanted buffer.entry part.new }
{
    let lost = named(count, a, b);
    let handed = choose(Shape { m, n, w }, stripe, lost, wanted, buffer);
    let length = handed.len();
    if length == 0 {
        *part = [0, 0, 0];
    } else if is_lost(lost, wanted) {
        *part = [1, 0, length];
    } else {
        *part = [0, wanted * length, length];
    }
}
