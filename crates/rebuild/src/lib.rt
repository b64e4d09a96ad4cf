// Rebuild: the lost columns of a stripe written from its survivors, if they agree.
// Refusing, staging, asking the survivors, the commit and clearing are separate functions.
#![tactic(auto)]

mod rebuilding;
mod refusing;

pub use rebuilding::rebuild;
