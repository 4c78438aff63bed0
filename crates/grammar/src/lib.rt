// The grammar of a sheet's lines. For each kind of line a state says what has been read of it; a word moves the state
// on, or is wrong there. So the leftmost word that cannot stand is the first at which no state follows.
#![tactic(auto)]

mod count;
mod line;
mod load;
mod name;
mod names;
mod relay;
mod rows;
mod rule;
mod wrong;

pub use count::{CountLine, CountState};
pub use line::{LineKind, Standing};
pub use load::{LoadLine, LoadState};
pub use name::{NameLine, NameState};
pub use names::Names;
pub use relay::{RelayRow, RelayState};
pub use rule::{RuleLine, RuleState};
pub use wrong::Wrong;
