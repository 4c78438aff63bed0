// Stable extensions of argumentation frameworks (Dung 1995).
ghost use Rattle.std.specs.Prelude.{Decides};
ghost use Rattle.approx.specs.Stability.{Stable};
ghost use Rattle.classics.specs.Extensions.{framework_meaning, StableExtension};

use approx::Approximator;
use atoms::{Bounds, Interpretation};
use frameworks::Framework;

// Whether the set is a stable extension of the framework, which is to say that it is stable. Its lower says nothing to a
// framework, so that one step decides.
pub fn is_stable_extension(framework: &Framework, set: Interpretation) -> bool
    ensures stable { Decides result (Stable (framework_meaning framework.now) set) }
    ensures extension { Decides result (StableExtension framework.now set) }
{
    framework.sure(Bounds {
        lower: set,
        upper: set,
    }) == set
}
