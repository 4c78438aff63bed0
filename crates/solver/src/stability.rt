// The stability test.
ghost use Rattle.std.specs.Prelude.{Decides};
ghost use Rattle.approx.specs.Meanings.{meaning};
ghost use Rattle.approx.specs.Stability.{Stable};

use super::settling::climb_lower;
use approx::Approximator;
use atoms::{Bounds, Interpretation};

// Whether the interpretation is stable. One question comes first, since it mostly says no; then the climb to the least
// that sure keeps under it.
pub fn is_stable<A: Approximator>(pile: &A, z: Interpretation) -> bool
    ensures { Decides result (Stable (meaning A.Approximator pile.now) z) }
{
    pile.sure(Bounds { lower: z, upper: z }) == z && climb_lower(pile, z) == z
}
