// The boards worked by hand: for each its settled bounds and all of its stable interpretations, as one table in specs/ and
// one theorem over the definitions that settling and the law over runs cite.
#![tactic(auto)]

ghost use Rattle.std.specs.Prelude.{◌≡◌, List};
ghost use Rattle.tables.specs.declared.table.Place.{Place};
ghost use Rattle.worked.specs.Boards.{row, BoardsWorked};
ghost use Rattle.worked.specs.Rows.{answer, answer_of};

use atoms::{Bounds, Interpretation};

// A row of the table.
#[derive(Clone, Copy)]
pub enum Example {
    // `a if not b`, `b if not a`.
    EitherOr,
    // `p if not p`.
    DeniesItself,
    // `p if p`.
    HoldsItself,
    // The relay lines `a ! b`, `b ! c`, `c !`.
    Chain,
    // The relay lines `a ! b`, `b ! c`, `c ! a`.
    Ring,
    // One atom, and nothing said of it.
    Bare,
    // `p if load 0` with the load `sum >= 0 1 p`, by the bound reading.
    LoadBound,
    // The same by the plain reading.
    LoadPlain,
    // `a if not b` joined with the relay line `b ! a`.
    RuleAndRelay,
    // `a if not b`, `b if not a`, with a pegged off.
    EitherOrPegged,
    // `p if p`, with p pegged on.
    HoldsItselfPegged,
}

// What a board comes to: its settled bounds, and how many stable interpretations agree with the pegs.
#[derive(Clone, Copy)]
pub struct Answer {
    pub bounds: Bounds,
    pub tally: u32,
}

impl Answer {
    fn new(lower: Interpretation, upper: Interpretation, tally: u32) -> Answer
        ensures { result ≡ answer lower upper tally }
    {
        Answer {
            bounds: Bounds { lower, upper },
            tally,
        }
    }
}

// The answers, one by one.
fn by_hand(example: Example) -> Answer
    ensures { (names : List Place) → result ≡ answer_of (row names example) }
{
    match example {
        Example::EitherOr => Answer::new(0b00, 0b11, 2),
        Example::DeniesItself => Answer::new(0b0, 0b1, 0),
        Example::HoldsItself => Answer::new(0b0, 0b0, 1),
        Example::Chain => Answer::new(0b101, 0b101, 1),
        Example::Ring => Answer::new(0b000, 0b111, 0),
        Example::Bare => Answer::new(0b0, 0b0, 1),
        Example::LoadBound => Answer::new(0b1, 0b1, 1),
        Example::LoadPlain => Answer::new(0b0, 0b1, 0),
        Example::RuleAndRelay => Answer::new(0b00, 0b11, 2),
        Example::EitherOrPegged => Answer::new(0b00, 0b11, 1),
        Example::HoldsItselfPegged => Answer::new(0b0, 0b0, 0),
    }
}

// The answer to a board, as worked by hand; and every row of the table is right, whatever the atoms are called.
pub fn boards_worked(example: Example) -> Answer
    ensures is { (names : List Place) → result ≡ answer_of (row names example) }
    ensures right { BoardsWorked }
{
    by_hand(example)
}
