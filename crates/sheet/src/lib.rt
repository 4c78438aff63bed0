// Reads a sheet: bytes in, a filled table or the first fault out. A refused sheet leaves the table as it was. The reader
// borrows the text, takes it line by line and word by word, and allocates nothing.
#![tactic(auto)]

mod atoms;
mod contents;
mod lines;
mod sections;
mod whole;

pub use atoms::name_of;
pub use whole::read;
