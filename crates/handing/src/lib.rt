// A column handed out: a part of the caller's own stripe.
#![tactic(auto)]

ghost use Rattle.handing.specs.Handed.{Handed};

use shape::Shape;

// The bytes of a column, from column·m·w on in the stripe itself; a part of length 0 where the request is refused.
pub fn column(shape: Shape, stripe: &[u8], column: usize) -> &[u8]
    ensures { Handed shape stripe.entry column result }
{
    if shape.accept_stripe(stripe).is_err() || shape.n <= column {
        return &stripe[..0];
    }
    let length = shape.column_length();
    let at = column * length;
    let end = at + length;
    &stripe[at..end]
}
