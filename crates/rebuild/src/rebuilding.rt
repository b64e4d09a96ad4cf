// Rebuild: refuse, stage, ask the survivors, write the lost columns; and clear the workspace, whatever came of it.
ghost use Rattle.std.specs.Prelude.{◌≡◌, length};
ghost use Rattle.listing.specs.Places.{Table};
ghost use Rattle.answer.specs.Answers.{number};
ghost use Rattle.answer.specs.Outcome.{Outcome};
ghost use Rattle.rule.specs.Losses.{Solves};
ghost use Rattle.rebuild.specs.Rebuild.{late_table, rebuild_table, OtherwiseGood, Rebuild};

use crate::refusing::accept;
use agreeing::agree;
use answer::{Answer, Refusal};
use committing::{commit, stores};
use rule::Losses;
use shape::Shape;
use staging::{read, stage};

// Stages the lost columns, and writes them if the survivors agree.
fn mend(shape: Shape, lost: Losses, stripe: &mut [u8], work: &mut [u8], table: &[u16; 32]) -> Answer
    requires { (OtherwiseGood shape lost stripe.old (length work.old)) × (Table shape table.now) }
    ensures { (length work.new ≡ length work.old) × (Outcome (late_table shape lost stripe.old) stripe.old (Solves shape lost stripe.old) (number result) stripe.new) }
{
    let x = read(shape, lost);
    stage(stripe, work, table, x);
    if !agree(stripe, work, table, x) {
        return Err(Refusal::Disagree);
    }
    commit(stripe, work, x, stores(x));
    Ok(())
}

// A rebuild but for the clearing of the workspace.
fn attempt(shape: Shape, lost: Losses, stripe: &mut [u8], work: &mut [u8]) -> Answer
    ensures { (length work.new ≡ length work.old) × (Outcome (rebuild_table shape lost stripe.old (length work.old)) stripe.old (Solves shape lost stripe.old) (number result) stripe.new) }
{
    accept(shape, lost, stripe, work.len())?;
    mend(shape, lost, stripe, work, &listing::table(shape))
}

// Writes the lost columns of a stripe from its survivors, if they agree. The workspace is all zero after it, under
// every answer.
pub fn rebuild(shape: Shape, lost: Losses, stripe: &mut [u8], work: &mut [u8]) -> Answer
    ensures { Rebuild shape lost stripe.old (length work.old) result stripe.new work.new }
{
    let answer = attempt(shape, lost, stripe, work);
    xor::clear(work);
    answer
}
