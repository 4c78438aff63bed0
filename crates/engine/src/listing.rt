// The listing: it hands out the stable interpretations of a settled board that agree with its pegs, one after another.
ghost use Rattle.std.specs.Prelude.{◌≡◌, [], ◌∷◌, IfOk, OnOk, OnErr};
ghost use Rattle.approx.specs.Meanings.{meaning};
ghost use Rattle.approx.specs.Settling.{Settles};
ghost use Rattle.solver.specs.Lists.{Counted, Gathered, GatheredFront};
ghost use Rattle.solver.specs.Pegs.{Pegs as PegsIn};
ghost use Rattle.solver.specs.Search.{Sought};
ghost use Rattle.engine.specs.Standing.{standing};
ghost use Rattle.engine.specs.Rules.{peg_fault, pull_fault};
ghost use Rattle.engine.specs.Histories.{History, in_force, Agreeing};
ghost use Rattle.engine.specs.Listings.{list_gives, close_gives, begun, moved_on, peg_gives, peg_leaves, pull_gives, pull_leaves, peg_event, pull_event, WantedOf, Listable, Ran};
ghost use Rattle.engine.specs.declared.runs.Event.TheVariants.{Next, Rewind, Tally};

use super::board::Settled;
use super::pegs::{Pegs, Sense};
use approx::Approximator;
use atoms::{Bounds, Interpretation};
use faults::{BenchFault, Refused};
use solver::{count, first_after, gather, pegged};
use std::alloc::AllocError;

// The most atoms that may be open in a listing.
const MOST_OPEN: u32 = 16;

// A settled board that is listed: its pegs, and the last interpretation that was handed out since it began.
// That the kept bounds are the pile's settled ones (`Listable`) is a premise of the calls, and no fact in the type: it is what
// settling promises, and the clauses of the calls carry it.
#[derive(Drop)]
pub struct Listing<A> {
    pile: A,
    bounds: Bounds,
    pegs: Pegs,
    last: Option<Interpretation>,
}

// A token of a peg that was granted. It cannot be copied or let go: only a pull takes it.
pub struct Token {
    atom: u8,
    sense: Sense,
}

impl Token {
    // The atom that was pegged.
    pub fn atom(&self) -> u8
        ensures { result ≡ self.now.atom }
    {
        self.atom
    }

    // What the peg asks of it.
    pub fn sense(&self) -> Sense
        ensures { result ≡ self.now.sense }
    {
        self.sense
    }
}

impl<A: Approximator> Settled<A> {
    // Begins a listing without pegs, or hands the settled board back where too many atoms are open.
    pub fn list(self) -> Result<Listing<A>, Refused<Settled<A>>>
        ensures gives { result ≡ list_gives self }
        ensures law { Settles (meaning A.Approximator self.pile) self.bounds → IfOk result (λ x. Ran A.Approximator [] x) }
    {
        let open = self.bounds.open_count();
        if open > MOST_OPEN {
            return Err(Refused {
                fault: BenchFault::TooManyOpen(open),
                back: self,
            });
        }
        Ok(Listing {
            pile: self.pile,
            bounds: self.bounds,
            pegs: Pegs::default(),
            last: None,
        })
    }
}

impl<A: Approximator> Listing<A> {
    // The bounds with the pegs put in.
    fn pegged_bounds(&self) -> Bounds
        ensures { PegsIn self.now.bounds self.now.pegs.on self.now.pegs.off result }
    {
        pegged(self.bounds, self.pegs.on, self.pegs.off)
    }

    // Nothing is handed out yet, under these pegs.
    fn begin_anew(&mut self, pegs: Pegs)
        ensures { self.new ≡ begun self.old pegs }
    {
        self.pegs = pegs;
        self.last = None;
    }

    // The following stable interpretation that agrees with the pegs, or no more.
    pub fn next(&mut self) -> Option<Interpretation>
        ensures gives { Listable A.Approximator self.old → Sought (WantedOf A.Approximator self.old) self.old.last result }
        ensures leaves { self.new ≡ moved_on self.old result }
        ensures law { (h : History) → Ran A.Approximator h self.old → Ran A.Approximator (Next result ∷ h) self.new }
    {
        let z = first_after(&self.pile, self.pegged_bounds(), self.last)?;
        self.last = Some(z);
        Some(z)
    }

    // How many stable interpretations agree with the pegs.
    pub fn tally(&self) -> u32
        ensures gives { Listable A.Approximator self.now → Counted (WantedOf A.Approximator self.now) result }
        ensures law { (h : History) → Ran A.Approximator h self.now → Ran A.Approximator (Tally result ∷ h) self.now }
    {
        count(&self.pile, self.pegged_bounds())
    }

    // Puts all stable interpretations that agree with the pegs behind those that the list has, in listing order, whatever was
    // handed out before; where memory runs short, the first so many are there. One walk is quicker than as many calls of `next`.
    pub fn standings(&self, found: &mut Vec<Interpretation>) -> Result<(), AllocError>
        ensures gives { Listable A.Approximator self.now → OnOk result (Gathered (WantedOf A.Approximator self.now) found.old.items found.new.items) }
        ensures short { Listable A.Approximator self.now → OnErr result (GatheredFront (WantedOf A.Approximator self.now) found.old.items found.new.items) }
        ensures law { (h : History) → Ran A.Approximator h self.now → OnOk result (Gathered (Agreeing (meaning A.Approximator self.now.pile) (in_force h)) found.old.items found.new.items) }
    {
        gather(&self.pile, self.pegged_bounds(), found)
    }

    // Begins anew.
    pub fn rewind(&mut self)
        ensures leaves { self.new ≡ begun self.old self.old.pegs }
        ensures law { (h : History) → Ran A.Approximator h self.old → Ran A.Approximator (Rewind ∷ h) self.new }
    {
        self.begin_anew(self.pegs);
    }

    // Pegs the atom and begins anew; or says why not.
    pub fn peg(&mut self, atom: u8, sense: Sense) -> Result<Token, BenchFault>
        ensures gives { result ≡ peg_gives (peg_fault (A.width self.old.pile) (standing self.old.pegs) atom) atom sense }
        ensures leaves { self.new ≡ peg_leaves (peg_fault (A.width self.old.pile) (standing self.old.pegs) atom) self.old atom sense }
        ensures law { (h : History) → Ran A.Approximator h self.old → Ran A.Approximator (peg_event atom sense result ∷ h) self.new }
    {
        if atom >= self.pile.width() {
            return Err(BenchFault::NoSuchAtom(atom));
        }
        if self.pegs.holds(atom) {
            return Err(BenchFault::Pegged(atom));
        }
        self.begin_anew(self.pegs.with(atom, sense));
        Ok(Token { atom, sense })
    }

    // Takes the peg of the token out and begins anew; or hands the token back.
    pub fn pull(&mut self, token: Token) -> Result<(), Refused<Token>>
        ensures gives { result ≡ pull_gives (pull_fault (standing self.old.pegs) token.atom token.sense) token }
        ensures leaves { self.new ≡ pull_leaves (pull_fault (standing self.old.pegs) token.atom token.sense) self.old token }
        ensures law { (h : History) → Ran A.Approximator h self.old → Ran A.Approximator (pull_event token result ∷ h) self.new }
    {
        if !self.pegs.in_force(token.atom, token.sense) {
            return Err(Refused {
                fault: BenchFault::NotInForce(token.atom),
                back: token,
            });
        }
        let Token { atom, sense } = token;
        self.begin_anew(self.pegs.without(atom, sense));
        Ok(())
    }

    // The settled board again, or the listing where pegs are in force.
    pub fn close(self) -> Result<Settled<A>, Refused<Listing<A>>>
        ensures { result ≡ close_gives self }
    {
        let count = self.pegs.count();
        if count > 0 {
            return Err(Refused {
                fault: BenchFault::PegsInForce(count),
                back: self,
            });
        }
        Ok(Settled {
            pile: self.pile,
            bounds: self.bounds,
        })
    }
}
