// What bounds say of an entry's condition.
ghost use Rattle.std.specs.Prelude.{◌≡◌};
ghost use Rattle.aggregates.specs.Conditions.{condition, undecided};

use atoms::{Bounds, State};
use tables::table::Entry;

#[derive(Clone, Copy, Debug, PartialEq, Eq)]
pub enum Condition {
    Met,
    Failed,
    Open,
}

impl Condition {
    // `a` is met if a is on and failed if a is off; `not a` is the reverse.
    pub(super) fn of(entry: &Entry, bounds: Bounds) -> Condition
        ensures { result ≡ condition entry.now bounds.lower bounds.upper }
    {
        match (bounds.state(entry.atom), entry.negated) {
            (State::On, false) | (State::Off, true) => Condition::Met,
            (State::On, true) | (State::Off, false) => Condition::Failed,
            (State::Open, _) => Condition::Open,
        }
    }

    // Whether it is neither met nor failed.
    pub(super) fn is_open(self) -> bool
        ensures { result ≡ undecided self }
    {
        self == Condition::Open
    }
}
