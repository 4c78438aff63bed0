// The bound reading: it goes by the least and the greatest sum.
ghost use Rattle.aggregates.specs.Readings.{bound_sure, bound_may};
ghost use Rattle.aggregates.specs.Bounding.{bound_laws};

use super::comparing::{always, sometimes};
use super::reading::Reading;
use super::sums::Span;
use atoms::Bounds;
use tables::table::Aggregate;

// Surely where every number from the one to the other compares so, and perhaps where some number does.
#[derive(Clone, Copy)]
pub struct Bound;

impl Reading for Bound {
    ghost sure = { λ _ a l u. bound_sure a l u };

    ghost may = { λ _ a l u. bound_may a l u };

    ghost laws = { λ _. bound_laws };

    fn sure(&self, aggregate: &Aggregate, bounds: Bounds) -> bool {
        let span = Span::of(aggregate, bounds);
        always(aggregate.comparison, span, aggregate.limit)
    }

    fn may(&self, aggregate: &Aggregate, bounds: Bounds) -> bool {
        let span = Span::of(aggregate, bounds);
        sometimes(aggregate.comparison, span, aggregate.limit)
    }
}
