// The calls for programs in other languages: numbers as themselves, a slice as a pointer and its length, a lent array
// as a pointer. Each is the call that it is named after: the result is the number of its answer, and the lent array
// holds its other numbers. Choose and column carry no number: the lent array says where the part lies, since no part
// can be handed out.
#![tactic(auto)]

mod losses;
mod offers;
mod symbols;
mod whole;

pub use losses::{bangsorut_choose, bangsorut_fill, bangsorut_rebuild};
pub use offers::{bangsorut_prices, bangsorut_stock};
pub use symbols::{bangsorut_column, bangsorut_raw_store, bangsorut_small_write};
pub use whole::{bangsorut_check, bangsorut_encode, bangsorut_locate};
