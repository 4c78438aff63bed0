// The approximator: what every part of a sheet, and every pile of parts, is to the engine. The trait says what it means
// and which laws it keeps; specs/ says what is stable and what is settled; proofs/ has the theory, from the laws alone.
#![tactic(auto)]

mod approximator;

pub use approximator::Approximator;
