// Kinds 1 to 3: what a record writes into the stripe, be it the zeros of a new shape or a symbol.
#![tactic(auto)]

mod shaping;
mod symbols;

pub use shaping::{begin, begun};
pub use symbols::{store, write};
