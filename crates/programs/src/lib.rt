// The rule program as an approximator. Its rules lie as sets in a plain table, made from the record that a sheet fills,
// and a reading judges their aggregates.
#![tactic(auto)]

mod clause;
mod program;
mod rules;

pub use clause::Clause;
pub use program::RuleProgram;
pub use rules::RuleTable;
