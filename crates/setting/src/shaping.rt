// Kind 1: a shape, taken or refused.
ghost use Rattle.std.specs.Prelude.{◌≡◌, List, ℕ, IfOk};
ghost use Rattle.shape.specs.Good.{Good};
ghost use Rattle.kinds.specs.Kinds.{Held, begun_of, TellsOf};

use answer::Refusal;
use kinds::{Deed, Numbers, front, tell};
use records::{byte_at, two_bytes};
use shape::Shape;

// Kind 1: the shape that the payload names, its stripe made zeros; a refused one leaves the stripe.
pub fn begin(payload: &[u8], stripe: &mut [u8]) -> Result<Shape, Refusal>
    ensures told { (held : Held) (room : ℕ) (work : List ℕ) → TellsOf 1 held payload.now stripe.old room (begun_of held result) stripe.new work }
    ensures good { IfOk result Good }
{
    if payload.len() != 4 {
        return Err(Refusal::BadPayload);
    }
    let shape = Shape {
        m: byte_at(payload, 0),
        n: byte_at(payload, 1),
        w: two_bytes(payload, 2),
    };
    shape.accept()?;
    let end = front(shape, stripe.len());
    xor::clear(&mut stripe[..end]);
    Ok(shape)
}

// The line of a shape: one that is taken is held from then on, and x is the length of its stripe; a refused one
// leaves the old shape.
pub fn begun(held: Option<Shape>, outcome: Result<Shape, Refusal>) -> Deed
    requires { IfOk outcome Good }
    ensures { result ≡ begun_of held outcome }
{
    match outcome {
        Ok(shape) => {
            let x = shape.stripe_length();
            tell(Some(shape), Ok(Numbers { x, y: 0 }))
        }
        Err(refusal) => tell(held, Err(refusal)),
    }
}
