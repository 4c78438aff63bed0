// What can be wrong with a word where it stands, or with the want of one.
ghost use Rattle.std.specs.Prelude.{◌≡◌};
ghost use Rattle.grammar.specs.Wrongs.{fault_at};

use faults::{SheetFault, Spot};

#[derive(Clone, Copy, Debug, PartialEq, Eq)]
pub enum Wrong {
    Contents,
    BadName,
    NotAName,
    Misplaced,
    BadNumber,
    SecondLine,
}

impl Wrong {
    // The fault of this at a spot. A `From` would take the two as a pair, and is no plainer.
    pub fn at(self, spot: Spot) -> SheetFault
        ensures { result ≡ fault_at self spot }
    {
        match self {
            Wrong::Contents => SheetFault::Contents(spot),
            Wrong::BadName => SheetFault::BadName(spot),
            Wrong::NotAName => SheetFault::NotAName(spot),
            Wrong::Misplaced => SheetFault::Misplaced(spot),
            Wrong::BadNumber => SheetFault::BadNumber(spot),
            Wrong::SecondLine => SheetFault::SecondLine(spot),
        }
    }
}
