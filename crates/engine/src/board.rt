// The boards, as types that move: a board that is read, and one that is settled.
ghost use Rattle.std.specs.Prelude.{◌≡◌, MatchResult};
ghost use Rattle.approx.specs.Meanings.{meaning};
ghost use Rattle.approx.specs.Settling.{Rounds};
ghost use Rattle.engine.specs.Boards.{Granted, Denied};

use approx::Approximator;
use atoms::Bounds;
use faults::Refused;
use solver::{bounds_after, settle};

// A board that is read: nothing of it is settled.
#[derive(Drop)]
pub struct Board<A> {
    pile: A,
}

// A board with its settled bounds.
#[derive(Drop)]
pub struct Settled<A> {
    pub(crate) pile: A,
    pub(crate) bounds: Bounds,
}

impl<A: Approximator> Board<A> {
    // A board of the pile.
    pub fn new(pile: A) -> Board<A>
        ensures { result.pile ≡ pile }
    {
        Board { pile }
    }

    // The bounds that settling has come to after some rounds.
    pub fn after(&self, rounds: u32) -> Bounds
        ensures { Rounds (meaning A.Approximator self.now.pile) rounds result }
    {
        bounds_after(&self.pile, rounds)
    }

    // The settled board, or this board again with the fault. A `match`, since either arm takes the board.
    pub fn settle(self) -> Result<Settled<A>, Refused<Board<A>>>
        ensures { MatchResult result (Granted A.Approximator self) (Denied A.Approximator self) }
    {
        match settle(&self.pile) {
            Ok(bounds) => Ok(Settled {
                pile: self.pile,
                bounds,
            }),
            Err(fault) => Err(Refused { fault, back: self }),
        }
    }
}

impl<A: Approximator> Settled<A> {
    // The settled bounds.
    pub fn bounds(&self) -> Bounds
        ensures { result ≡ self.now.bounds }
    {
        self.bounds
    }
}
