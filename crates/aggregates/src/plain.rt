// The plain reading: it says nothing until every entry is decided.
ghost use Rattle.aggregates.specs.Readings.{plain_sure, plain_may};
ghost use Rattle.aggregates.specs.Deciding.{plain_laws};

use super::bound::Bound;
use super::reading::Reading;
use super::sums::leaves_open;
use atoms::Bounds;
use tables::table::Aggregate;

// With no open entry the truth; otherwise not surely, but perhaps. With no open entry there is one sum only, of which the
// bound reading says the truth.
#[derive(Clone, Copy)]
pub struct Plain;

impl Reading for Plain {
    ghost sure = { λ _ a l u. plain_sure a l u };

    ghost may = { λ _ a l u. plain_may a l u };

    ghost laws = { λ _. plain_laws };

    fn sure(&self, aggregate: &Aggregate, bounds: Bounds) -> bool {
        !leaves_open(aggregate, bounds) && Bound.sure(aggregate, bounds)
    }

    fn may(&self, aggregate: &Aggregate, bounds: Bounds) -> bool {
        leaves_open(aggregate, bounds) || Bound.may(aggregate, bounds)
    }
}
