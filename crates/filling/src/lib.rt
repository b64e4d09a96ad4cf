// A column read: fill solves a lost column in the answer buffer, choose hands back the column that is wanted.
#![tactic(auto)]

mod choosing;
mod filling;

pub use choosing::choose;
pub use filling::fill;
