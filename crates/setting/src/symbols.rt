// Kinds 2 and 3: the symbol after a column and a row, written into the stripe.
ghost use Rattle.std.specs.Prelude.{List, ℕ};
ghost use Rattle.kinds.specs.Kinds.{deed_of, TellsOf};

use answer::Refusal;
use kinds::{Numbers, accepted, front};
use records::byte_at;
use shape::Shape;

// Kind 2: a small write.
pub fn write(held: Option<Shape>, payload: &[u8], stripe: &mut [u8]) -> Result<Numbers, Refusal>
    ensures { (room : ℕ) (work : List ℕ) → TellsOf 2 held payload.now stripe.old room (deed_of held result) stripe.new work }
{
    let shape = accepted(held).ok_or(Refusal::NoShape)?;
    if payload.len() < 2 {
        return Err(Refusal::BadPayload);
    }
    let end = front(shape, stripe.len());
    let column = byte_at(payload, 0);
    let row = byte_at(payload, 1);
    writing::small_write(shape, &mut stripe[..end], column, row, &payload[2..])?;
    Ok(Numbers { x: 0, y: 0 })
}

// Kind 3: a raw store.
pub fn store(held: Option<Shape>, payload: &[u8], stripe: &mut [u8]) -> Result<Numbers, Refusal>
    ensures { (room : ℕ) (work : List ℕ) → TellsOf 3 held payload.now stripe.old room (deed_of held result) stripe.new work }
{
    let shape = accepted(held).ok_or(Refusal::NoShape)?;
    if payload.len() < 2 {
        return Err(Refusal::BadPayload);
    }
    let end = front(shape, stripe.len());
    let column = byte_at(payload, 0);
    let row = byte_at(payload, 1);
    storing::raw_store(shape, &mut stripe[..end], column, row, &payload[2..])?;
    Ok(Numbers { x: 0, y: 0 })
}
