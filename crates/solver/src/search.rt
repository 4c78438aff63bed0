// The search for stable interpretations between bounds: the bounds are narrowed, and then parted at the lowest open atom.
// The pile and the bounds stay two arguments: the one is lent through the whole search, the others change at every call.
ghost use Rattle.std.specs.Prelude.{◌^◌, ◌≤◌, Decides, OnOk, OnErr};
ghost use Rattle.atoms.specs.Bounded.{Proper, open_count};
ghost use Rattle.approx.specs.Meanings.{meaning};
ghost use Rattle.solver.specs.Lists.{Counted, Tallied, Gathered, GatheredFront};
ghost use Rattle.solver.specs.Search.{Inside, Founded, Narrows, Leaves, Forks, After, Sought};

use super::climb::climb;
use super::pegs::pegged;
use super::stability::is_stable;
use approx::Approximator;
use atoms::{Bounds, Interpretation, comes_before, lowest, only};
use std::alloc::AllocError;

// What bounds leave: nothing that is stable, a single one that is, or two parts, where all of the first comes before the second.
#[derive(Clone, Copy)]
enum Fork {
    Nothing,
    Single(Interpretation),
    Two(Bounds, Bounds),
}

// What can be founded on the lower without an atom outside the upper: no stable interpretation between them has more.
// The climb leaves out atoms that only hold each other up, which no single question does.
fn founded<A: Approximator>(pile: &A, bounds: Bounds) -> Interpretation
    ensures { Founded (meaning A.Approximator pile.now) bounds result }
{
    climb(0, bounds.upper, |kept| {
        let upper = bounds.lower | kept;
        bounds.upper & pile.may(Bounds { upper, ..bounds })
    })
}

// The bounds narrowed by what is sure and by what can be founded; they are crossed only where they hold nothing stable.
fn narrowed<A: Approximator>(pile: &A, bounds: Bounds) -> Bounds
    requires { Proper bounds }
    ensures { Narrows (meaning A.Approximator pile.now) bounds result }
{
    Bounds {
        lower: bounds.lower | pile.sure(bounds),
        upper: founded(pile, bounds),
    }
}

// What the bounds leave. They part at their lowest open atom: first what lacks it, then what has it.
fn left_between<A: Approximator>(pile: &A, bounds: Bounds) -> Fork
    ensures { Leaves (meaning A.Approximator pile.now) bounds result }
{
    if !bounds.is_proper() {
        return Fork::Nothing;
    }
    match lowest(bounds.open_atoms()) {
        Some(atom) => {
            let chosen = only(atom);
            Fork::Two(pegged(bounds, 0, chosen), pegged(bounds, chosen, 0))
        }
        None if is_stable(pile, bounds.lower) => Fork::Single(bounds.lower),
        None => Fork::Nothing,
    }
}

// The fork at the bounds.
fn branch<A: Approximator>(pile: &A, bounds: Bounds) -> Fork
    requires { Proper bounds }
    ensures { Forks (meaning A.Approximator pile.now) bounds result }
{
    left_between(pile, narrowed(pile, bounds))
}

// Whether the interpretation comes after the one that is given, if one is.
fn comes_after(z: Interpretation, after: Option<Interpretation>) -> bool
    ensures { Decides result (After after z) }
{
    after.is_none_or(|earlier| comes_before(earlier, z))
}

// The first stable interpretation between the bounds, in listing order, that comes after the one that is given.
pub fn first_after<A: Approximator>(
    pile: &A,
    bounds: Bounds,
    after: Option<Interpretation>,
) -> Option<Interpretation>
    ensures { Sought (Inside (meaning A.Approximator pile.now) bounds) after result }
{
    if !bounds.is_proper() {
        return None;
    }
    // the upper comes last of all that lies between the bounds
    if !comes_after(bounds.upper, after) {
        return None;
    }
    match branch(pile, bounds) {
        Fork::Nothing => None,
        Fork::Single(z) => comes_after(z, after).then_some(z),
        // a closure for the second part would have to repeat what is promised of the whole
        Fork::Two(without, with) => match first_after(pile, without, after) {
            None => first_after(pile, with, after),
            found => found,
        },
    }
}

// How many stable interpretations lie between the bounds, by the walk of `gather`, without a list; a number that does not fit is
// the greatest that does.
pub fn count<A: Approximator>(pile: &A, bounds: Bounds) -> u32
    ensures tallied { Tallied (Inside (meaning A.Approximator pile.now) bounds) (2 ^ open_count bounds) result }
    ensures exact { open_count bounds ≤ 16 → Counted (Inside (meaning A.Approximator pile.now) bounds) result }
{
    if !bounds.is_proper() {
        return 0;
    }
    match branch(pile, bounds) {
        Fork::Nothing => 0,
        Fork::Single(_) => 1,
        Fork::Two(without, with) => count(pile, without).saturating_add(count(pile, with)),
    }
}

// Puts the stable interpretations between the bounds behind those that the list has, in listing order. Nothing is allocated but
// room in the list; where memory runs short, the first so many are there. It walks as `count` does, which keeps no list: one walk
// for both would hand a closure down the recursion, and would have to repeat what is promised of the whole.
pub fn gather<A: Approximator>(
    pile: &A,
    bounds: Bounds,
    found: &mut Vec<Interpretation>,
) -> Result<(), AllocError>
    ensures whole { OnOk result (Gathered (Inside (meaning A.Approximator pile.now) bounds) found.old.items found.new.items) }
    ensures short { OnErr result (GatheredFront (Inside (meaning A.Approximator pile.now) bounds) found.old.items found.new.items) }
{
    if !bounds.is_proper() {
        return Ok(());
    }
    match branch(pile, bounds) {
        Fork::Nothing => Ok(()),
        Fork::Single(z) => {
            found.push(z)?;
            Ok(())
        }
        Fork::Two(without, with) => {
            gather(pile, without, found)?;
            gather(pile, with, found)
        }
    }
}
