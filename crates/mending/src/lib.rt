// Kinds 4 to 6: whether the stripe is damaged and where, and lost columns rebuilt.
#![tactic(auto)]

mod asking;
mod rebuilding;

pub use asking::{check, locate};
pub use rebuilding::mend;
