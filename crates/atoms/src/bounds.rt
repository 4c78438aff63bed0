// A lower and an upper interpretation, and what they leave open.
ghost use Rattle.std.specs.Prelude.{◌≡◌, Some, Decides};
ghost use Rattle.atoms.specs.Sets.{collected};
ghost use Rattle.atoms.specs.Bounded.{Proper, state_of, state_word, is_open, open_count};

use super::set::{Interpretation, has, within};
use std::fmt;

// What is on at least, and what is on at most.
#[derive(Clone, Copy, Debug, PartialEq, Eq)]
pub struct Bounds {
    pub lower: Interpretation,
    pub upper: Interpretation,
}

// What bounds say of an atom.
#[derive(Clone, Copy, Debug, PartialEq, Eq)]
pub enum State {
    On,
    Off,
    Open,
}

impl fmt::Display for State {
    ghost output = { λ state. Some (state_word state) };

    fn fmt<W: fmt::Write>(&self, f: &mut fmt::Formatter<W>) -> fmt::Result {
        f.write_str(match self {
            State::On => "on",
            State::Off => "off",
            State::Open => "open",
        })
    }
}

impl Bounds {
    // Whether the lower is within the upper.
    pub fn is_proper(self) -> bool
        ensures { Decides result (Proper self) }
    {
        within(self.lower, self.upper)
    }

    // The atoms that are open.
    pub fn open_atoms(self) -> Interpretation
        ensures { result ≡ collected (is_open self) 64 }
    {
        self.upper & !self.lower
    }

    // How many atoms are open.
    pub fn open_count(self) -> u32
        ensures { result ≡ open_count self }
    {
        self.open_atoms().count_ones()
    }

    // What the bounds say of the atom.
    pub fn state(self, atom: u8) -> State
        ensures { result ≡ state_of self atom }
    {
        if has(self.lower, atom) {
            State::On
        } else if has(self.upper, atom) {
            State::Open
        } else {
            State::Off
        }
    }
}
