// A sheet's text: which bytes may stand where, its lines and words with their spots, what a word says, and the names of atoms.
// Nothing is copied: a word is a part of the text that is lent.
#![tactic(auto)]

pub mod check;
pub mod names;
mod number;
pub mod reader;
#[cfg(test)]
mod tests;
pub mod word;
