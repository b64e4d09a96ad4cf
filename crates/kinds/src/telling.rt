// What a record comes to.
ghost use Rattle.std.specs.Prelude.{◌≡◌};
ghost use Rattle.answer.specs.Answers.{number};
ghost use Rattle.kinds.specs.Kinds.{deed, deed_of, skipped};

use crate::{Deed, Numbers, Told};
use answer::{Answer, Refusal, number};
use shape::Shape;

// A line with its answer, x and y, whatever these are; the shape held after it is `held`.
pub fn told(held: Option<Shape>, answer: Answer, x: usize, y: usize) -> Deed
    ensures { result ≡ deed held (number answer) x y }
{
    let answer = number(answer);
    Deed {
        held,
        told: Some(Told { answer, x, y }),
    }
}

// The line of an answered or refused record, a refused one with x and y 0; the shape held after it is `held`.
#[tactic(auto, unfolding(answer::specs::Answers::number))]
pub fn tell(held: Option<Shape>, outcome: Result<Numbers, Refusal>) -> Deed
    ensures { result ≡ deed_of held outcome }
{
    match outcome {
        Ok(Numbers { x, y }) => told(held, Ok(()), x, y),
        Err(refusal) => told(held, Err(refusal), 0, 0),
    }
}

// A client's record: no line.
pub fn skip(held: Option<Shape>) -> Deed
    ensures { result ≡ skipped held }
{
    Deed { held, told: None }
}
