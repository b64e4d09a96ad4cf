// Rebuilds of one encoded stripe: with none, one or two columns lost, and with one lost and a surviving byte altered.
ghost use Rattle.std.specs.Prelude.{◌≡◌, ◌+◌, ◌≤◌, ◌<◌, length};
ghost use Rattle.shape.specs.Good.{Good, size};
ghost use Rattle.all_pairs.specs.Tallies.{Sane, runs_most};

use crate::tally::Tally;
use answer::{Answer, Refusal};
use rule::Losses;
use shape::Shape;
use trial::{pattern, zeros};

// One rebuild of the stripe as given, in a workspace full of old bytes: whether it answers as wanted, leaves the
// stripe so and the workspace all zero.
fn rebuilt(
    shape: Shape,
    lost: Losses,
    given: &[u8],
    stripe: &mut [u8],
    work: &mut [u8],
    wanted: Answer,
    left: &[u8],
    tally: Tally,
) -> Tally
    requires { (length given.now ≤ length stripe.old) × (Sane tally) × (tally.runs < runs_most) }
    ensures { (Sane result) × (result.runs ≡ tally.runs + 1) }
{
    stripe[..given.len()].copy_from_slice(given);
    pattern(work, 5);
    let answer = rebuild::rebuild(shape, lost, stripe, work);
    tally.with(answer == wanted, *stripe == *left, zeros(work))
}

// Stores other bytes in a column.
fn lose(shape: Shape, stripe: &mut [u8], column: usize, other: &[u8]) {
    for row in 0..shape.m {
        let _ = storing::raw_store(shape, stripe, column, row, other);
    }
}

// Alters one byte of a column: which one is by the seed.
fn alter(shape: Shape, stripe: &mut [u8], column: usize, seed: usize)
    requires { (Good shape) × (length stripe.old ≡ size shape) × (column < shape.n) }
{
    let at = shape.place(seed % shape.m, column) + seed % shape.w;
    stripe[at] ^= 1;
}

// With none lost.
pub(crate) fn none(shape: Shape, whole: &[u8], stripe: &mut [u8], work: &mut [u8]) -> Tally
    requires { length whole.now ≡ length stripe.old }
{
    rebuilt(
        shape,
        Losses::None,
        whole,
        stripe,
        work,
        Ok(()),
        whole,
        Tally::new(),
    )
}

// With each column lost.
pub(crate) fn singles(
    shape: Shape,
    whole: &[u8],
    given: &mut [u8],
    stripe: &mut [u8],
    work: &mut [u8],
    other: &[u8],
) -> Tally
    requires { (Good shape) × (length whole.now ≡ length given.old) × (length given.old ≡ length stripe.old) }
{
    let mut tally = Tally::new();
    for c in 0..shape.n {
        given.copy_from_slice(whole);
        lose(shape, given, c, other);
        tally = rebuilt(
            shape,
            Losses::One(c),
            given,
            stripe,
            work,
            Ok(()),
            whole,
            tally,
        );
    }
    tally
}

// With each column lost and a byte of the next one altered: then the survivors disagree.
pub(crate) fn altered(
    shape: Shape,
    whole: &[u8],
    given: &mut [u8],
    stripe: &mut [u8],
    work: &mut [u8],
    other: &[u8],
) -> Tally
    requires { (Good shape) × (length whole.now ≡ size shape) × (length given.old ≡ size shape) × (length stripe.old ≡ size shape) }
{
    let wanted = Err(Refusal::Disagree);
    let mut tally = Tally::new();
    for c in 0..shape.n {
        given.copy_from_slice(whole);
        lose(shape, given, c, other);
        alter(shape, given, (c + 1) % shape.n, c);
        tally = rebuilt(
            shape,
            Losses::One(c),
            given,
            stripe,
            work,
            wanted,
            given,
            tally,
        );
    }
    tally
}

// Columns a and b lost; no run where they are the same.
fn pair(
    shape: Shape,
    a: usize,
    b: usize,
    whole: &[u8],
    given: &mut [u8],
    stripe: &mut [u8],
    work: &mut [u8],
    other: &[u8],
    tally: Tally,
) -> Tally
    requires { (length whole.now ≡ length given.old) × (length given.old ≡ length stripe.old) × (Sane tally) × (tally.runs < runs_most) }
    ensures { (Sane result) × (result.runs ≤ tally.runs + 1) }
{
    if a == b {
        return tally;
    }
    given.copy_from_slice(whole);
    lose(shape, given, a, other);
    lose(shape, given, b, other);
    rebuilt(
        shape,
        Losses::Two(a, b),
        given,
        stripe,
        work,
        Ok(()),
        whole,
        tally,
    )
}

// Column a lost with every other, named in this order.
fn pairs_with(
    shape: Shape,
    a: usize,
    whole: &[u8],
    given: &mut [u8],
    stripe: &mut [u8],
    work: &mut [u8],
    other: &[u8],
    before: Tally,
) -> Tally
    requires { (Good shape) × (length whole.now ≡ length given.old) × (length given.old ≡ length stripe.old) × (Sane before) × (before.runs + 64 ≤ runs_most) }
    ensures { (Sane result) × (result.runs ≤ before.runs + 64) }
{
    let mut tally = before;
    for b in 0..shape.n {
        tally = pair(shape, a, b, whole, given, stripe, work, other, tally);
    }
    tally
}

// With every two columns lost, named in either order.
pub(crate) fn pairs(
    shape: Shape,
    whole: &[u8],
    given: &mut [u8],
    stripe: &mut [u8],
    work: &mut [u8],
    other: &[u8],
) -> Tally
    requires { (Good shape) × (length whole.now ≡ length given.old) × (length given.old ≡ length stripe.old) }
{
    let mut tally = Tally::new();
    for a in 0..shape.n {
        tally = pairs_with(shape, a, whole, given, stripe, work, other, tally);
    }
    tally
}
