// Kind 6: the columns that the payload names lost, rebuilt.
ghost use Rattle.std.specs.Prelude.{◌≡◌, List, length, ℕ};
ghost use Rattle.xor.specs.Tells.{Tells};
ghost use Rattle.rebuild.specs.Rebuild.{Cleared};
ghost use Rattle.kinds.specs.Kinds.{Kind, Wrong, deed_of, TellsOf};

use answer::Refusal;
use kinds::{Numbers, accepted, front};
use records::byte_at;
use rule::named;
use shape::Shape;

// The most columns that can be lost.
const MOST_LOST: usize = 2;

// Whether the payload is not a count of at most 2 with as many columns after it.
fn miscounted(payload: &[u8]) -> bool
    ensures { Tells (Wrong Kind.rebuilding payload.now) result }
{
    let count = byte_at(payload, 0);
    if MOST_LOST < count {
        return true;
    }
    payload.len() != 1 + count
}

// Kind 6: rebuild; x is how many columns were lost. The workspace is left to be cleared.
pub fn mend(
    held: Option<Shape>,
    payload: &[u8],
    stripe: &mut [u8],
    work: &mut [u8],
) -> Result<Numbers, Refusal>
    ensures { (length work.new ≡ length work.old) × ((clear : List ℕ) → Cleared (length work.old) clear → TellsOf 6 held payload.now stripe.old (length work.old) (deed_of held result) stripe.new clear) }
{
    let shape = accepted(held).ok_or(Refusal::NoShape)?;
    if miscounted(payload) {
        return Err(Refusal::BadPayload);
    }
    let count = byte_at(payload, 0);
    let lost = named(count, byte_at(payload, 1), byte_at(payload, 2));
    let end = front(shape, stripe.len());
    rebuild::rebuild(shape, lost, &mut stripe[..end], work)?;
    Ok(Numbers { x: count, y: 0 })
}
