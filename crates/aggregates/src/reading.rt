// How an aggregate is read on bounds: whether it surely holds, and whether it may hold.
ghost use Rattle.std.specs.Prelude.{◌≡◌, ℕ, Bool};
ghost use Rattle.atoms.specs.Sets.{Within};
ghost use Rattle.tables.specs.declared.table.Aggregate.{Aggregate};
ghost use Rattle.aggregates.specs.Laws.{Laws};

use atoms::Bounds;
use tables::table::Aggregate;

// The meaning is `sure` and `may`; both take a lower and an upper interpretation. The laws speak of bounds, never of a
// lower that is not within its upper. The aggregate and the bounds stay two arguments, here and below: the one lies in a table
// and the others come with the question, so that a pair of them would be made for each call and taken apart in it.
pub trait Reading {
    ghost sure: { Self → Aggregate → ℕ → ℕ → Bool };

    ghost may: { Self → Aggregate → ℕ → ℕ → Bool };

    // Whether the aggregate holds on whatever lies between the bounds. A crossed question is answered freely.
    fn sure(&self, aggregate: &Aggregate, bounds: Bounds) -> bool
        ensures { Within bounds.lower bounds.upper → result ≡ sure self.now aggregate.now bounds.lower bounds.upper };

    // Whether the aggregate can hold on something that lies between the bounds. A crossed question is answered freely.
    fn may(&self, aggregate: &Aggregate, bounds: Bounds) -> bool
        ensures { Within bounds.lower bounds.upper → result ≡ may self.now aggregate.now bounds.lower bounds.upper };

    // What each implementation proves of its meaning.
    ghost laws: { (r : Self) → Laws (sure r) (may r) };
}
