// Aggregates on bounds. An aggregate compares the weights of the entries that are met, summed, with a limit. A reading
// says of bounds whether it surely holds and whether it may hold; on one interpretation every reading says the truth.
#![tactic(auto)]

mod bound;
mod comparing;
mod condition;
mod plain;
mod reading;
mod sums;

pub use bound::Bound;
pub use plain::Plain;
pub use reading::Reading;
