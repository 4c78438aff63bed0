// What the engine computes, written once over any approximator: the settled bounds, whether an interpretation is stable,
// and a search for the stable ones between bounds. No question that it puts is crossed.
#![tactic(auto)]

mod climb;
mod pegs;
mod search;
mod settling;
mod stability;

pub use pegs::pegged;
pub use search::{count, first_after, gather};
pub use settling::{bounds_after, settle};
pub use stability::is_stable;
