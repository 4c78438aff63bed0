// Pegs, put into bounds.
ghost use Rattle.std.specs.Prelude.{◌≡◌};
ghost use Rattle.solver.specs.Pegs.{pegged, Pegs};

use atoms::{Bounds, Interpretation};

// The bounds with the atoms of `on` joined to the lower and those of `off` taken out of the upper. They are crossed where
// nothing between the bounds agrees with the pegs.
pub fn pegged(bounds: Bounds, on: Interpretation, off: Interpretation) -> Bounds
    ensures is { result ≡ pegged bounds on off }
    ensures holds { Pegs bounds on off result }
{
    Bounds {
        lower: bounds.lower | on,
        upper: bounds.upper & !off,
    }
}
