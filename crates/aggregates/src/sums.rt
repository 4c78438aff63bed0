// The sums that the entries of an aggregate can give.
ghost use Rattle.std.specs.Prelude.{◌≡◌, FitsSigned};
ghost use Rattle.std.specs.Int.{w16};
ghost use Rattle.aggregates.specs.Sums.{entries_of, least_of, most_of, low_sum, high_sum, some_open};

use super::condition::Condition;
use atoms::Bounds;
use tables::table::{Aggregate, Entry};

// The least and the greatest sum that entries can give.
#[derive(Clone, Copy)]
pub struct Span {
    pub low: i32,
    pub high: i32,
}

impl Span {
    // Of one entry: a met one gives its weight and a failed one nothing; an open one may do either.
    fn of_one(entry: &Entry, bounds: Bounds) -> Span
        ensures low { result.low ≡ least_of entry.now bounds.lower bounds.upper }
        ensures high { result.high ≡ most_of entry.now bounds.lower bounds.upper }
        ensures small { FitsSigned w16 result.low × FitsSigned w16 result.high }
    {
        let weight = i32::from(entry.weight);
        match Condition::of(entry, bounds) {
            Condition::Met => Span {
                low: weight,
                high: weight,
            },
            Condition::Failed => Span { low: 0, high: 0 },
            Condition::Open => Span {
                low: weight.min(0),
                high: weight.max(0),
            },
        }
    }

    // Of the aggregate between the bounds. Its entries are few, and their weights are small, so that no sum wraps.
    pub(super) fn of(aggregate: &Aggregate, bounds: Bounds) -> Span
        ensures low { result.low ≡ low_sum (entries_of aggregate.now) bounds.lower bounds.upper }
        ensures high { result.high ≡ high_sum (entries_of aggregate.now) bounds.lower bounds.upper }
    {
        let (mut low, mut high) = (0, 0);
        for entry in aggregate.entries.as_slice() {
            let one = Span::of_one(entry, bounds);
            low += one.low;
            high += one.high;
        }
        Span { low, high }
    }
}

// Whether the bounds leave one of its entries open.
pub(super) fn leaves_open(aggregate: &Aggregate, bounds: Bounds) -> bool
    ensures { result ≡ some_open (entries_of aggregate.now) bounds.lower bounds.upper }
{
    aggregate
        .entries
        .as_slice()
        .iter()
        .any(|entry| Condition::of(entry, bounds).is_open())
}
