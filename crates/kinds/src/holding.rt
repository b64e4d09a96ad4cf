// The shape that the program goes by, and the part of the buffer that is its stripe.
ghost use Rattle.shape.specs.Good.{Good};
ghost use Rattle.kinds.specs.Holding.{Accepted, Front};

use shape::Shape;

// The shape held, if it is a good one.
pub fn accepted(held: Option<Shape>) -> Option<Shape>
    ensures { Accepted held result }
{
    held.filter(|shape| shape.accept().is_ok())
}

// How many bytes of a buffer of `room` bytes are the stripe of a shape, which whoever calls it knows to be good; all
// of them where the buffer is too short.
pub fn front(shape: Shape, room: usize) -> usize
    requires { Good shape }
    ensures { Front shape room result }
{
    shape.stripe_length().min(room)
}
