// Interpretations as 64-bit sets of atoms: membership, inclusion, the listing order, and bounds with what is on, off
// and open between them. The laws of sets in proofs/ serve every crate above.
#![tactic(auto)]

mod bounds;
mod order;
mod set;

pub use bounds::{Bounds, State};
pub use order::comes_before;
pub use set::{Interpretation, clipped, full, has, lowest, only, those, width_read, within};
