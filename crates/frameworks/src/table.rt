// The relay lines of a framework: which atoms have one, and which atoms attack each.
ghost use Rattle.std.specs.Prelude.{◌≡◌, ℕ, ◌<◌, min};
ghost use Rattle.atoms.specs.Sets.{Has};
ghost use Rattle.frameworks.specs.Lines.{no_lines, with_line, stands, unattacked, Stands};

use atoms::{Interpretation, those};

// For each atom the set of its attackers, if it has a line. No table shared with the triggers of a cut-out: there every atom has a
// row, and a row is held against a set the other way round.
#[derive(Clone, Copy)]
pub struct RelayTable {
    lines: [Option<Interpretation>; 64],
}

impl Default for RelayTable {
    ghost is_default = { λ table. table ≡ no_lines };

    fn default() -> RelayTable {
        RelayTable::new()
    }
}

impl RelayTable {
    // A table without lines.
    pub fn new() -> RelayTable
        ensures { result ≡ no_lines }
    {
        RelayTable { lines: [None; 64] }
    }

    // Gives the atom a line with these attackers, in place of any that it had. There are 64 atoms: any other changes nothing.
    #[tactic(auto, using(std::proofs::lemmas::List::set_past))]
    pub fn set_line(&mut self, atom: u8, attackers: Interpretation)
        ensures { self.new ≡ with_line self.old atom attackers }
    {
        // By the index: after a `get_mut` the proof knows nothing of the other rows.
        if atom < 64 {
            self.lines[atom as usize] = Some(attackers);
        }
    }

    // Whether the atom has a line none of whose attackers is in the set.
    fn stands(&self, against: Interpretation, atom: u8) -> bool
        requires { atom < 64 }
        ensures { result ≡ stands self.now against atom }
    {
        // by reference: a copy of the row would read the attackers of an atom that has no line, too
        match &self.lines[atom as usize] {
            Some(attackers) => *attackers & against == 0,
            None => false,
        }
    }

    // The atoms below the width that have a line none of whose attackers is in the set.
    pub fn unattacked(&self, width: u8, against: Interpretation) -> Interpretation
        ensures is { result ≡ unattacked self.now (min width 64) against }
        ensures has { (i : ℕ) → Has result i → (i < min width 64) × Stands self.now against i }
        ensures all { (i : ℕ) → i < min width 64 → Stands self.now against i → Has result i }
    {
        those(width, |atom| self.stands(against, atom))
    }
}
