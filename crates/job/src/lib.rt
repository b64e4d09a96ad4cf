// The job program on slices: one record of the input in, the fields of one line out. Its kind does the work; here is
// which one, and what follows.
#![tactic(auto)]

mod deciding;
mod stepping;
mod turning;

use line::Line;
use shape::Shape;
pub use stepping::step;

// What the program knows between two records: the shape that it holds, and how many records there were.
#[derive(Clone, Copy)]
pub struct State {
    pub held: Option<Shape>,
    pub records: usize,
}

// What a step comes to, a turn of the program: the next state, the kind of the record, also of one that gets no line
// and 0 where there is none, the line if one is printed, how many bytes of the input the record took, and whether the
// program stops.
#[derive(Clone, Copy)]
pub struct Turn {
    pub state: State,
    pub kind: usize,
    pub line: Option<Line>,
    pub taken: usize,
    pub stops: bool,
}
