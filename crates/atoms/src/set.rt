// Sets of atoms: atom i is in a set where its binary digit i is one.
ghost use Rattle.std.specs.Prelude.{◌≡◌, ℕ, ◌-◌, ◌%◌, ◌^◌, ◌<◌, min, Decides, MatchOption, if◌then◌else◌};
ghost use Rattle.atoms.specs.Sets.{has, Within, Lowest, width_read, all_below, clipped};

// A set of atoms: those that are on.
pub type Interpretation = u64;

// Whether the atom is in the set.
pub fn has(set: Interpretation, atom: u8) -> bool
    ensures { result ≡ has set atom }
{
    atom < 64 && (set >> atom) % 2 == 1
}

// Whether every atom of `a` is in `b`.
pub fn within(a: Interpretation, b: Interpretation) -> bool
    ensures { Decides result (Within a b) }
{
    a & b == a
}

// A number as a width: 1 if it is less, and 64 if it is more.
pub fn width_read(number: u8) -> u8
    ensures { result ≡ width_read number }
{
    number.clamp(1, 64)
}

// Every atom below the width.
pub fn full(width: u8) -> Interpretation
    ensures { result ≡ all_below (min width 64) }
{
    if width >= 64 {
        u64::MAX
    } else {
        (1 << width) - 1
    }
}

// The atoms of the set that are below the width.
pub fn clipped(set: Interpretation, width: u8) -> Interpretation
    ensures { result ≡ clipped width set }
{
    set & full(width)
}

// The atom alone; there are 64 atoms, so any other gives the empty set.
pub fn only(atom: u8) -> Interpretation
    ensures { result ≡ clipped 64 (2 ^ atom) }
{
    if atom < 64 { 1 << atom } else { 0 }
}

// The atom alone if it is chosen, and no atom otherwise.
fn only_if(chosen: bool, atom: u8) -> Interpretation
    ensures { result ≡ (if chosen then clipped 64 (2 ^ atom) else 0) }
{
    if chosen { only(atom) } else { 0 }
}

// The atoms below the width for which it holds; there are 64 atoms. A loop, since a chain would keep no word of what was
// answered for the atoms that are left out.
pub fn those<F: Fn(u8) -> bool>(width: u8, holds: F) -> Interpretation
    requires { (i : ℕ) → i < min width 64 → F.pre holds i }
    ensures below { result < 2 ^ min width 64 }
    ensures has { (i : ℕ) → i < min width 64 → F.post holds i (has result i) }
{
    let mut set: Interpretation = 0;
    for atom in 0..width.min(64) {
        set |= only_if(holds(atom), atom);
    }
    set
}

// The lowest atom of the set, if it has one.
pub fn lowest(set: Interpretation) -> Option<u8>
    ensures { MatchOption result (set ≡ 0) (λ i. (i < 64) × Lowest set i) }
{
    if set == 0 {
        return None;
    }
    Some(set.trailing_zeros() as u8)
}
