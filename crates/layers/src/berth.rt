// A pile moved up: its atoms begin at a first place.
ghost use Rattle.std.specs.Prelude.{MatchResult};
ghost use Rattle.approx.specs.Meanings.{meaning};
ghost use Rattle.layers.specs.Shifts.{berthed};
ghost use Rattle.layers.specs.Berths.{Granted, Denied};
ghost use Rattle.approx.proofs.Laws.{lawful, asked};
ghost use Rattle.layers.specs.Shifting.{berthed_lawful};

use super::slot::Slot;
use approx::Approximator;
use atoms::{Bounds, Interpretation};
use faults::{BenchFault, Refused};

// With the first place p, atom i of the pile is atom p + i. The width is p plus the pile's.
#[derive(Drop)]
pub struct Berth<A> {
    pile: A,
    slot: Slot,
}

impl<A: Approximator> Berth<A> {
    // The pile from the first place on, or the pile again where the width would be more than 64.
    pub fn new(pile: A, first: u16) -> Result<Berth<A>, Refused<A>>
        ensures { MatchResult result (Granted A.Approximator pile first) (Denied A.Approximator pile first) }
    {
        let width = u32::from(first) + u32::from(pile.width());
        if width > 64 {
            return Err(Refused {
                fault: BenchFault::BerthTooWide(width),
                back: pile,
            });
        }
        Ok(Berth {
            pile,
            slot: Slot::new(first as u8, width as u8),
        })
    }
}

impl<A: Approximator> Approximator for Berth<A> {
    ghost width = { λ b. (berthed b.slot.first b.slot.width (meaning A.Approximator b.pile)).width };

    ghost sure = { λ b. (berthed b.slot.first b.slot.width (meaning A.Approximator b.pile)).sure };

    ghost may = { λ b. (berthed b.slot.first b.slot.width (meaning A.Approximator b.pile)).may };

    ghost laws = { λ b. asked (berthed_lawful b.slot.first b.slot.width b.slot.room b.slot.narrow (lawful (A.laws b.pile))) };

    fn width(&self) -> u8 {
        self.slot.width()
    }

    fn sure(&self, bounds: Bounds) -> Interpretation {
        self.slot.raised(self.pile.sure(self.slot.asked(bounds)))
    }

    fn may(&self, bounds: Bounds) -> Interpretation {
        self.slot.raised(self.pile.may(self.slot.asked(bounds)))
    }
}
