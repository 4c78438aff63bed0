// The record that a sheet fills: everything that the sheet says, as written and in order.
// It has a fixed size and asks for no memory; rows that are not in use are zero, so that equal sheets give equal records.
#![tactic(auto)]

pub mod rows;
pub mod table;
