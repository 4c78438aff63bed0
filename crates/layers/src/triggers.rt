// The triggers of a cut-out: for each atom, the atoms that drop it. No table shared with the relay lines of a framework: there an
// atom may have no row, and a row is held against a set the other way round.
ghost use Rattle.std.specs.Prelude.{◌≡◌, ℕ, ◌<◌, min};
ghost use Rattle.atoms.specs.Sets.{Has};
ghost use Rattle.layers.specs.Triggers.{no_triggers, with_triggers, trips, Trips, tripped};

use atoms::{Interpretation, those};

#[derive(Clone, Copy)]
pub struct TriggerTable {
    triggers: [Interpretation; 64],
}

impl Default for TriggerTable {
    ghost is_default = { λ table. table ≡ no_triggers };

    fn default() -> TriggerTable {
        TriggerTable::new()
    }
}

impl TriggerTable {
    // A table in which no atom has a trigger.
    pub fn new() -> TriggerTable
        ensures { result ≡ no_triggers }
    {
        TriggerTable { triggers: [0; 64] }
    }

    // Gives the atom these triggers, in place of those that it had. There are 64 atoms: any other changes nothing.
    #[tactic(auto, using(std::proofs::lemmas::List::set_past))]
    pub fn set_triggers(&mut self, atom: u8, triggers: Interpretation)
        ensures { self.new ≡ with_triggers self.old atom triggers }
    {
        // By the index: after a `get_mut` the proof knows nothing of the other rows.
        if atom < 64 {
            self.triggers[atom as usize] = triggers;
        }
    }

    // Whether the atom has a trigger in the set.
    fn trips(&self, by: Interpretation, atom: u8) -> bool
        requires { atom < 64 }
        ensures { result ≡ trips self.now by atom }
    {
        self.triggers[atom as usize] & by != 0
    }

    // The atoms below the width that have a trigger in the set.
    pub fn tripped(&self, width: u8, by: Interpretation) -> Interpretation
        ensures is { result ≡ tripped self.now (min width 64) by }
        ensures has { (i : ℕ) → Has result i → (i < min width 64) × Trips self.now by i }
        ensures all { (i : ℕ) → i < min width 64 → Trips self.now by i → Has result i }
    {
        those(width, |atom| self.trips(by, atom))
    }
}
