// What the engine knows of a pile: its width, and what is surely and what is possibly on between bounds.
ghost use Rattle.std.specs.Prelude.{◌≡◌, ℕ};
ghost use Rattle.atoms.specs.Sets.{Within, clipped};
ghost use Rattle.approx.specs.Laws.{Laws};

use atoms::{Bounds, Interpretation};

// The meaning is `width`, `sure` and `may`; the last two take a lower and an upper interpretation.
// The laws ask the least that the engine needs: they speak of bounds, never of a lower that is not within its upper.
pub trait Approximator {
    ghost width: { Self → ℕ };

    ghost sure: { Self → ℕ → ℕ → ℕ };

    ghost may: { Self → ℕ → ℕ → ℕ };

    // How many atoms there are.
    fn width(&self) -> u8
        ensures { result ≡ width self.now };

    // The atoms that are on in whatever lies between the bounds. A crossed question is answered freely.
    fn sure(&self, bounds: Bounds) -> Interpretation
        ensures { Within (clipped (width self.now) bounds.lower) (clipped (width self.now) bounds.upper) → result ≡ sure self.now bounds.lower bounds.upper };

    // The atoms that can be on in something that lies between the bounds. A crossed question is answered freely.
    fn may(&self, bounds: Bounds) -> Interpretation
        ensures { Within (clipped (width self.now) bounds.lower) (clipped (width self.now) bounds.upper) → result ≡ may self.now bounds.lower bounds.upper };

    // What each implementation proves of its meaning.
    ghost laws: { (a : Self) → Laws (width a) (sure a) (may a) };
}
