// A layer that drops atoms: an atom is off where one of its triggers is on.
ghost use Rattle.std.specs.Prelude.{◌≡◌};
ghost use Rattle.approx.specs.Meanings.{meaning};
ghost use Rattle.layers.specs.CutOuts.{dropped, cut_out};
ghost use Rattle.approx.proofs.Laws.{lawful, asked};
ghost use Rattle.layers.specs.Cutting.{cut_out_lawful};

use super::triggers::TriggerTable;
use approx::Approximator;
use atoms::{Bounds, Interpretation, clipped};

// What the pile below answers, without the atoms that are tripped. The width stays.
#[derive(Drop)]
pub struct CutOut<A> {
    pile: A,
    table: TriggerTable,
}

impl<A: Approximator> CutOut<A> {
    // The pile under these triggers. The clauses say what its own fields are, as those of a framework and of a program do.
    pub fn new(pile: A, table: TriggerTable) -> CutOut<A>
        ensures same_pile { result.pile ≡ pile }
        ensures same_table { result.table ≡ table }
    {
        CutOut { pile, table }
    }

    // The atoms that have a trigger in the set. A trigger at or above the width is ignored.
    fn dropped(&self, by: Interpretation) -> Interpretation
        ensures { result ≡ dropped self.now.table (meaning A.Approximator self.now.pile).width by }
    {
        let width = self.pile.width();
        self.table.tripped(width, clipped(by, width))
    }
}

impl<A: Approximator> Approximator for CutOut<A> {
    ghost width = { λ c. (cut_out c.table (meaning A.Approximator c.pile)).width };

    ghost sure = { λ c. (cut_out c.table (meaning A.Approximator c.pile)).sure };

    ghost may = { λ c. (cut_out c.table (meaning A.Approximator c.pile)).may };

    ghost laws = { λ c. asked (cut_out_lawful c.table (lawful (A.laws c.pile))) };

    fn width(&self) -> u8 {
        self.pile.width()
    }

    fn sure(&self, bounds: Bounds) -> Interpretation {
        self.pile.sure(bounds) & !self.dropped(bounds.upper)
    }

    fn may(&self, bounds: Bounds) -> Interpretation {
        self.pile.may(bounds) & !self.dropped(bounds.lower)
    }
}
