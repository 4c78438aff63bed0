// A listing together with the tokens of its own pegs. A granted peg's token is kept, and a pull of that peg spends it; so a
// pull is refused only where no such peg is in force, and a board can be finished at any time.
#![tactic(auto)]

mod board;
mod fault;

pub use board::Pegboard;
pub use fault::PegFault;
