// Settling: from the first bounds, round by round, until the bounds repeat.
ghost use Rattle.std.specs.Prelude.{◌≡◌, ℕ, min, MatchResult};
ghost use Rattle.atoms.specs.Sets.{Within};
ghost use Rattle.approx.specs.Meanings.{meaning};
ghost use Rattle.approx.specs.Settling.{Climbs, NextBounds, Rounds, Reached, first_bounds, Settles, Crosses};
ghost use Rattle.faults.specs.declared.BenchFault.TheVariants.{Crossed};

use super::climb::climb;
use approx::Approximator;
use atoms::{Bounds, Interpretation, full};
use faults::BenchFault;

// The climb by sure from no atom, under the upper.
pub(crate) fn climb_lower<A: Approximator>(pile: &A, upper: Interpretation) -> Interpretation
    requires { Within (A.sure pile.now upper upper) upper }
    ensures { Climbs (λ x. A.sure pile.now x upper) 0 result }
{
    climb(0, upper, |lower| pile.sure(Bounds { lower, upper }))
}

// The climb by may from the lower, over it.
fn climb_upper<A: Approximator>(pile: &A, lower: Interpretation) -> Interpretation
    requires { Within lower (A.may pile.now lower lower) }
    ensures { Climbs (λ x. A.may pile.now lower x) lower result }
{
    climb(lower, first_bounds(pile).upper, |upper| {
        pile.may(Bounds { lower, upper })
    })
}

// One round: the bounds after these.
fn next_bounds<A: Approximator>(pile: &A, bounds: Bounds) -> Bounds
    requires { Reached (meaning A.Approximator pile.now) bounds }
    ensures { NextBounds (meaning A.Approximator pile.now) bounds result }
{
    Bounds {
        lower: climb_lower(pile, bounds.upper),
        upper: climb_upper(pile, bounds.lower),
    }
}

// No atom, and every atom below the width.
fn first_bounds<A: Approximator>(pile: &A) -> Bounds
    ensures { result ≡ first_bounds (meaning A.Approximator pile.now) }
{
    Bounds {
        lower: 0,
        upper: full(pile.width()),
    }
}

// The bounds after some rounds.
pub fn bounds_after<A: Approximator>(pile: &A, rounds: u32) -> Bounds
    ensures { Rounds (meaning A.Approximator pile.now) rounds result }
{
    let mut bounds = first_bounds(pile);
    for _round in 0..rounds {
        bounds = next_bounds(pile, bounds);
    }
    bounds
}

// The earliest bounds that equal their successor, or the fault of bounds that cross before that.
pub fn settle<A: Approximator>(pile: &A) -> Result<Bounds, BenchFault>
    ensures { MatchResult result
        (λ b. Settles (meaning A.Approximator pile.now) b)
        (λ f. (f ≡ Crossed) × Crosses (meaning A.Approximator pile.now)) }
{
    let mut bounds = first_bounds(pile);
    'settle: loop {
        let next = next_bounds(pile, bounds);
        if bounds == next {
            return Ok(bounds);
        }
        if !next.is_proper() {
            return Err(BenchFault::Crossed);
        }
        bounds = next;
    }
}
