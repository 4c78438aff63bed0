// Where a berth lies among the atoms.
ghost use Rattle.std.specs.Prelude.{◌≡◌, ℕ, ◌<◌, ◌≤◌};
ghost use Rattle.atoms.specs.Sets.{Within, clipped};
ghost use Rattle.layers.specs.Shifts.{lowered, raised};

use atoms::{Bounds, Interpretation, clipped};

// From a first place up to a width. There is room for an atom, and none lies past the 64.
#[derive(Clone, Copy)]
pub struct Slot {
    first: u8,
    width: u8,
    ghost room: { first < width },
    ghost narrow: { width ≤ 64 },
}

impl Slot {
    // The slot from this place up to this width.
    pub(super) fn new(first: u8, width: u8) -> Slot
        requires room { first < width }
        requires narrow { width ≤ 64 }
        ensures same_first { result.first ≡ first }
        ensures same_width { result.width ≡ width }
    {
        Slot { first, width }
    }

    // How many atoms there are up to the slot's end.
    pub(super) fn width(self) -> u8
        ensures { result ≡ self.width }
    {
        self.width
    }

    // The atoms of the slot, moved down to begin at 0.
    fn lowered(self, set: Interpretation) -> Interpretation
        ensures { result ≡ lowered self.first self.width set }
    {
        clipped(set, self.width) >> self.first
    }

    // The question that is put to what lies in the slot. It is crossed below no width, unless the one that came was.
    #[tactic(auto, using(atoms::proofs::Inclusion::within_mod, atoms::proofs::Moving::within_down))]
    pub(super) fn asked(self, bounds: Bounds) -> Bounds
        ensures lower { result.lower ≡ lowered self.first self.width bounds.lower }
        ensures upper { result.upper ≡ lowered self.first self.width bounds.upper }
        ensures proper { (w : ℕ) → Within (clipped self.width bounds.lower) (clipped self.width bounds.upper) → Within (clipped w result.lower) (clipped w result.upper) }
    {
        Bounds {
            lower: self.lowered(bounds.lower),
            upper: self.lowered(bounds.upper),
        }
    }

    // The atoms of what lies in the slot, moved up to their places; what would lie at or above the width is left out.
    pub(super) fn raised(self, set: Interpretation) -> Interpretation
        ensures { result ≡ raised self.first self.width set }
    {
        clipped(set << self.first, self.width)
    }
}
