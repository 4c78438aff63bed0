// The climb by a step, which settling, the stability test and the search share.
ghost use Rattle.std.specs.Prelude.{ℕ};
ghost use Rattle.approx.specs.Settling.{Climbs};
ghost use Rattle.solver.specs.Ascents.{Ascends};

use atoms::Interpretation;

// The climb from the start: the step is taken until it leads nowhere else. At the top it is not asked again, since it leads
// nowhere over it.
pub(crate) fn climb<F: Fn(Interpretation) -> Interpretation>(
    start: Interpretation,
    top: Interpretation,
    step: F,
) -> Interpretation
    requires { (f : ℕ → ℕ) × Ascends (F.pre step) (F.post step) f start top }
    ensures { (f : ℕ → ℕ) → Ascends (F.pre step) (F.post step) f start top → Climbs f start result }
{
    let mut reach = start;
    'climb: while reach != top {
        let next = step(reach);
        if next == reach {
            return reach;
        }
        reach = next;
    }
    reach
}
