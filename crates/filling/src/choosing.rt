// Choose: the wanted column from the stripe or from the answer buffer, as the caller's own bytes.
ghost use Rattle.filling.specs.HandedBack.{HandedBack};

use crate::filling::accept;
use handing::column;
use rule::{Losses, is_lost};
use shape::Shape;

// The wanted column in the stripe if it survives, or else the first m·w bytes of the answer buffer; a part of length
// 0 where fill is refused.
pub fn choose<'a>(
    shape: Shape,
    stripe: &'a [u8],
    lost: Losses,
    wanted: usize,
    answer: &'a [u8],
) -> &'a [u8]
    ensures { HandedBack shape stripe.entry lost wanted answer.entry result }
{
    if accept(shape, stripe, lost, wanted, answer.len()).is_err() {
        return &answer[..0];
    }
    if is_lost(lost, wanted) {
        return &answer[..shape.column_length()];
    }
    column(shape, stripe, wanted)
}
