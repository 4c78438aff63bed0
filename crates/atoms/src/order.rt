// The listing order.
ghost use Rattle.std.specs.Prelude.{Decides};
ghost use Rattle.atoms.specs.Order.{Before};

use super::set::{Interpretation, has, lowest};

// Whether `a` is listed before `b`: it lacks the lowest atom where they differ.
pub fn comes_before(a: Interpretation, b: Interpretation) -> bool
    ensures { Decides result (Before a b) }
{
    lowest(a ^ b).is_some_and(|atom| has(b, atom))
}
