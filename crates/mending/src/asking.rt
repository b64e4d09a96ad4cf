// Kinds 4 and 5: what check and locate say of the stripe, which stays as it is.
ghost use Rattle.std.specs.Prelude.{List, ℕ};
ghost use Rattle.kinds.specs.Kinds.{deed_of, TellsOf};

use answer::Refusal;
use kinds::{Numbers, accepted, front};
use shape::Shape;

// Kind 4: check; x is how many chains are broken, y by how many bits in all.
pub fn check(held: Option<Shape>, payload: &[u8], stripe: &[u8]) -> Result<Numbers, Refusal>
    ensures { (room : ℕ) (work : List ℕ) → TellsOf 4 held payload.now stripe.now room (deed_of held result) stripe.now work }
{
    let shape = accepted(held).ok_or(Refusal::NoShape)?;
    if payload.len() != 0 {
        return Err(Refusal::BadPayload);
    }
    let end = front(shape, stripe.len());
    let report = checking::check(shape, &stripe[..end])?;
    Ok(Numbers {
        x: report.broken,
        y: report.bits,
    })
}

// Kind 5: locate; x is 0 sound, 1 one column, 2 more, and y the column or 0.
pub fn locate(held: Option<Shape>, payload: &[u8], stripe: &[u8]) -> Result<Numbers, Refusal>
    ensures { (room : ℕ) (work : List ℕ) → TellsOf 5 held payload.now stripe.now room (deed_of held result) stripe.now work }
{
    let shape = accepted(held).ok_or(Refusal::NoShape)?;
    if payload.len() != 0 {
        return Err(Refusal::BadPayload);
    }
    let end = front(shape, stripe.len());
    let (x, y) = locating::locate(shape, &stripe[..end])?.numbers();
    Ok(Numbers { x, y })
}
