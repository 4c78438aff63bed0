// Pegs: the atoms that are to be on, and those that are to be off.
ghost use Rattle.std.specs.Prelude.{◌≡◌, ◌<◌, true, false, ◌||◌};
ghost use Rattle.engine.specs.Standing.{standing, with_peg, without_peg, pegs_count, Turned};
ghost use Rattle.engine.specs.declared.pegs.Sense.TheVariants.{On, Off};

use atoms::{Interpretation, has, only};

// What a peg asks of its atom. The two stay two arguments: only a token holds them together, and nobody else may make one.
#[derive(Clone, Copy, Debug, PartialEq, Eq)]
pub enum Sense {
    On,
    Off,
}

// The pegs in force: a set of atoms for each sense.
#[derive(Clone, Copy, Default)]
pub(crate) struct Pegs {
    pub(crate) on: Interpretation,
    pub(crate) off: Interpretation,
}

impl Pegs {
    // Whether a peg of the atom and the sense is in force.
    pub(crate) fn in_force(self, atom: u8, sense: Sense) -> bool
        ensures { result ≡ standing self atom sense }
    {
        match sense {
            Sense::On => has(self.on, atom),
            Sense::Off => has(self.off, atom),
        }
    }

    // Whether the atom has a peg.
    pub(crate) fn holds(self, atom: u8) -> bool
        ensures { result ≡ (standing self atom On || standing self atom Off) }
    {
        self.in_force(atom, Sense::On) || self.in_force(atom, Sense::Off)
    }

    // With one peg more. This and `without` spell the sets out: one function over a step and a sense is no plainer.
    pub(crate) fn with(self, atom: u8, sense: Sense) -> Pegs
        ensures is { result ≡ with_peg self atom sense }
        ensures holds { atom < 64 → Turned (standing self) atom sense true (standing result) }
    {
        match sense {
            Sense::On => Pegs {
                on: self.on | only(atom),
                ..self
            },
            Sense::Off => Pegs {
                off: self.off | only(atom),
                ..self
            },
        }
    }

    // Without the peg.
    pub(crate) fn without(self, atom: u8, sense: Sense) -> Pegs
        ensures is { result ≡ without_peg self atom sense }
        ensures holds { Turned (standing self) atom sense false (standing result) }
    {
        match sense {
            Sense::On => Pegs {
                on: self.on & !only(atom),
                ..self
            },
            Sense::Off => Pegs {
                off: self.off & !only(atom),
                ..self
            },
        }
    }

    // How many pegs are in force.
    pub(crate) fn count(self) -> u32
        ensures { result ≡ pegs_count self }
    {
        self.on.count_ones() + self.off.count_ones()
    }
}
