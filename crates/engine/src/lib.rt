// The boards, as types that move: what is read is settled, by any approximator, what is settled is listed, and a refusal
// hands back what it was given.
#![tactic(auto)]

mod board;
mod listing;
mod pegs;
mod runs;

pub use board::{Board, Settled};
pub use listing::{Listing, Token};
pub use pegs::Sense;
pub use runs::{Command, Event, Unfinished, play, run};
