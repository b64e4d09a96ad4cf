// What a rebuild asks before its survivors.
ghost use Rattle.answer.specs.Answers.{number, First};
ghost use Rattle.rebuild.specs.Rebuild.{early_table};

use answer::{Answer, Refusal};
use rule::{Losses, beyond, twice};
use shape::Shape;

// Asks what a rebuild with a workspace of `room` bytes asks before its survivors: the first of the refusals 1 to 7
// that applies refuses it.
pub(crate) fn accept(shape: Shape, lost: Losses, stripe: &[u8], room: usize) -> Answer
    ensures { First (early_table shape lost stripe.now room) (number result) }
{
    shape.accept_stripe(stripe)?;
    if room < 2 * shape.column_length() {
        return Err(Refusal::SmallWorkspace);
    }
    if beyond(shape.n, lost) {
        return Err(Refusal::NoSuchPlace);
    }
    if twice(lost) {
        return Err(Refusal::SameColumn);
    }
    Ok(())
}
