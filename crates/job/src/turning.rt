// The step that follows from what a record comes to.
ghost use Rattle.std.specs.Prelude.{◌≡◌};
ghost use Rattle.job.specs.Step.{step_of, stopped, ended};

use crate::{State, Turn};
use answer::Refusal;
use kinds::{Deed, Told};
use line::Line;

// The step of the next record, of this kind and length, from what it comes to.
#[tactic(auto, unfolding(crate::specs::Step::next, crate::specs::Step::step_of))]
pub(crate) fn made(state: State, kind: usize, deed: Deed, taken: usize) -> Turn
    ensures { result ≡ step_of state kind deed taken }
{
    let Deed { held, told } = deed;
    let number = state.records.wrapping_add(1);
    Turn {
        state: State {
            held,
            records: number,
        },
        kind,
        line: told.map(|Told { answer, x, y }| Line {
            number,
            kind,
            answer,
            x,
            y,
        }),
        taken,
        stops: false,
    }
}

// The step at a record that is none: it and its line have kind 0, and the program stops.
#[tactic(auto, unfolding(crate::specs::Step::next, crate::specs::Step::stopped, answer::specs::Answers::refusal_number))]
pub(crate) fn stop(state: State, taken: usize) -> Turn
    ensures { result ≡ stopped state taken }
{
    let State { held, records } = state;
    let number = records.wrapping_add(1);
    let line = Line {
        number,
        kind: 0,
        answer: Refusal::BadRecord.number(),
        x: 0,
        y: 0,
    };
    Turn {
        state: State {
            held,
            records: number,
        },
        kind: 0,
        line: Some(line),
        taken,
        stops: true,
    }
}

// The step at the end of the input: nothing printed.
#[tactic(auto, unfolding(crate::specs::Step::ended))]
pub(crate) fn end(state: State) -> Turn
    ensures { result ≡ ended state }
{
    Turn {
        state,
        kind: 0,
        line: None,
        taken: 0,
        stops: true,
    }
}
