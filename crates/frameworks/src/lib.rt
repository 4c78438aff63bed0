// Relay lines as an approximator: an argumentation framework, in which an atom with a line is on where none of its
// attackers is. The lines lie by value in a plain table.
#![tactic(auto)]

mod framework;
mod maker;
mod table;

pub use framework::Framework;
pub use table::RelayTable;
