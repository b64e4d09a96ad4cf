// What a record of each kind does to the shape held and to its stripe; and what all kinds go by: the shape, its part
// of the buffer, and the line told.
#![tactic(auto)]

mod holding;
// Its `told` is named from there: beside the struct `Told` the name can't stand here too.
pub mod telling;

pub use holding::{accepted, front};
use shape::Shape;
pub use telling::{skip, tell};

// What an answered record gives for x and y.
#[derive(Clone, Copy)]
pub struct Numbers {
    pub x: usize,
    pub y: usize,
}

// What a line tells: its answer, x and y.
#[derive(Clone, Copy)]
pub struct Told {
    pub answer: usize,
    pub x: usize,
    pub y: usize,
}

// What a record comes to: the shape held after it, and what its line tells, if it gets one.
#[derive(Clone, Copy)]
pub struct Deed {
    pub held: Option<Shape>,
    pub told: Option<Told>,
}
