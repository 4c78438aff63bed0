// Sums held against a limit.
ghost use Rattle.std.specs.Prelude.{◌≡◌};
ghost use Rattle.aggregates.specs.Readings.{always, sometimes};

use super::sums::Span;
use tables::table::Comparison;

// Whether every number from low to high compares so.
pub(super) fn always(comparison: Comparison, span: Span, limit: i32) -> bool
    ensures { result ≡ always comparison span.low span.high limit }
{
    match comparison {
        Comparison::AtMost => span.high <= limit,
        Comparison::AtLeast => span.low >= limit,
        Comparison::Equal => span.low == limit && span.high == limit,
        Comparison::Unequal => span.high < limit || span.low > limit,
    }
}

// Whether some number from low to high compares so.
pub(super) fn sometimes(comparison: Comparison, span: Span, limit: i32) -> bool
    ensures { result ≡ sometimes comparison span.low span.high limit }
{
    match comparison {
        Comparison::AtMost => span.low <= limit,
        Comparison::AtLeast => span.high >= limit,
        Comparison::Equal => (span.low..=span.high).contains(&limit),
        Comparison::Unequal => span.low != limit || span.high != limit,
    }
}
