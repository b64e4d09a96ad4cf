// Which kind a record is of, and so who answers it.
ghost use Rattle.std.specs.Prelude.{◌≡◌, ℕ, List, length};
ghost use Rattle.rebuild.specs.Rebuild.{Cleared};
ghost use Rattle.job.specs.Deciding.{Decides};

use answer::Refusal;
use kinds::{Deed, skip, tell};
use mending::{check, locate, mend};
use setting::{begin, begun, store, write};
use shape::Shape;

// What a record comes to by its kind. The workspace is left to be cleared.
pub(crate) fn decide(
    held: Option<Shape>,
    kind: usize,
    payload: &[u8],
    stripe: &mut [u8],
    work: &mut [u8],
) -> Deed
    ensures { (length work.new ≡ length work.old) × ((clear : List ℕ) → Cleared (length work.old) clear → Decides kind held payload.now stripe.old (length work.old) result stripe.new clear) }
{
    match kind {
        1 => begun(held, begin(payload, stripe)),
        2 => tell(held, write(held, payload, stripe)),
        3 => tell(held, store(held, payload, stripe)),
        4 => tell(held, check(held, payload, stripe)),
        5 => tell(held, locate(held, payload, stripe)),
        6 => tell(held, mend(held, payload, stripe, work)),
        32768.. => skip(held),
        _ => tell(held, Err(Refusal::UnknownKind)),
    }
}
