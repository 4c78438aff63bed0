// Two approximators side by side, over the same atoms.
ghost use Rattle.std.specs.Prelude.{◌≡◌};
ghost use Rattle.approx.specs.Meanings.{meaning};
ghost use Rattle.layers.specs.Joined.{joined};
ghost use Rattle.approx.proofs.Laws.{lawful, asked};
ghost use Rattle.layers.specs.Joining.{joined_lawful};

use approx::Approximator;
use atoms::{Bounds, Interpretation};

// What either answers is answered; the width is the larger of the two.
#[derive(Drop)]
pub struct Joined<A, B> {
    left: A,
    right: B,
}

impl<A: Approximator, B: Approximator> Joined<A, B> {
    // The two side by side.
    pub fn new(left: A, right: B) -> Joined<A, B>
        ensures same_left { result.left ≡ left }
        ensures same_right { result.right ≡ right }
    {
        Joined { left, right }
    }
}

impl<A: Approximator, B: Approximator> Approximator for Joined<A, B> {
    ghost width = { λ j. (joined (meaning A.Approximator j.left) (meaning B.Approximator j.right)).width };

    ghost sure = { λ j. (joined (meaning A.Approximator j.left) (meaning B.Approximator j.right)).sure };

    ghost may = { λ j. (joined (meaning A.Approximator j.left) (meaning B.Approximator j.right)).may };

    ghost laws = { λ j. asked (joined_lawful (lawful (A.laws j.left)) (lawful (B.laws j.right))) };

    fn width(&self) -> u8 {
        self.left.width().max(self.right.width())
    }

    fn sure(&self, bounds: Bounds) -> Interpretation {
        self.left.sure(bounds) | self.right.sure(bounds)
    }

    fn may(&self, bounds: Bounds) -> Interpretation {
        self.left.may(bounds) | self.right.may(bounds)
    }
}
