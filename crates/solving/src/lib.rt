// A symbol solved: the sum of the other symbols of its chain, some of which may have been solved before it.
#![tactic(auto)]

use shape::Shape;

mod alone;
mod outer;

pub use alone::{column_of, solve_alone};
pub use outer::{solve_first, solve_second};

// The lost columns of a stripe: the walk leads from first up to second. n stands for no column, and then the walk is
// too long to ask for anything. In the buffer first's column begins at `one` and second's at `two`. Where a side is
// asked for, 0 is first's and 1 second's.
#[derive(Clone, Copy)]
pub struct Gone {
    pub shape: Shape,
    pub first: usize,
    pub second: usize,
    pub walk: usize,
    pub one: usize,
    pub two: usize,
}
