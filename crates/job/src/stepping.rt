// One step of the program: the next record of the input, answered; and the workspace cleared, whatever came of it.
ghost use Rattle.std.specs.Prelude.{◌≡◌, ℕ, List, length};
ghost use Rattle.rebuild.specs.Rebuild.{Cleared};
ghost use Rattle.job.specs.Step.{Stepped};

use crate::deciding::decide;
use crate::turning::{end, made, stop};
use crate::{State, Turn};
use records::{two_bytes, unframed};

// A step but for the clearing of the workspace.
fn attempt(state: State, input: &[u8], stripe: &mut [u8], work: &mut [u8]) -> Turn
    ensures { (length work.new ≡ length work.old) × ((clear : List ℕ) → Cleared (length work.old) clear → Stepped state input.now stripe.old (length work.old) result stripe.new clear) }
{
    if input.is_empty() {
        return end(state);
    }
    if unframed(input) {
        return stop(state, input.len());
    }
    let after = 2 + two_bytes(input, 0);
    let kind = two_bytes(input, 2);
    let deed = decide(state.held, kind, &input[4..after], stripe, work);
    made(state, kind, deed, after)
}

// Takes the next record of the input: the next state, and the fields of its line. The workspace is all zero after it,
// whatever the record was.
pub fn step(state: State, input: &[u8], stripe: &mut [u8], work: &mut [u8]) -> Turn
    ensures { Stepped state input.now stripe.old (length work.old) result stripe.new work.new }
{
    let came = attempt(state, input, stripe, work);
    xor::clear(work);
    came
}
