// What is lost, in the order in which it is solved, and the lost columns staged in a workspace.
#![tactic(auto)]

mod reading;
mod staging;

pub use reading::read;
pub use staging::stage;
