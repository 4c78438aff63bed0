// The pegboard: a listing, and the tokens of the pegs that are in force in it.
ghost use Rattle.std.specs.Prelude.{◌≡◌, ◌≤◌, true, [], ◌∷◌, MatchResult, IfOk, Ok, Err, vec_len, vec_capacity};
ghost use Rattle.std.specs.List.{position};
ghost use Rattle.approx.specs.Meanings.{meaning};
ghost use Rattle.approx.specs.Settling.{Settles};
ghost use Rattle.solver.specs.Lists.{Counted};
ghost use Rattle.solver.specs.Search.{Sought};
ghost use Rattle.engine.specs.Standing.{standing, without_peg, pegs_count};
ghost use Rattle.engine.specs.Rules.{peg_fault, pull_fault};
ghost use Rattle.engine.specs.Histories.{History};
ghost use Rattle.engine.specs.Listings.{list_gives, begun, moved_on, pull_leaves, WantedOf, Listable, Ran};
ghost use Rattle.engine.specs.declared.runs.Event.TheVariants.{Next, Pull, Rewind, Tally};
ghost use Rattle.pegboard.specs.Kept.{is_of, Kept};
ghost use Rattle.pegboard.specs.Answered.{PegAnswer, after_peg, pull_told, unlisted};

use super::fault::PegFault;
use approx::Approximator;
use atoms::Interpretation;
use engine::{Listing, Sense, Settled, Token};
use faults::{BenchFault, Refused};
use std::alloc::Global;

// A listing with one token for each of its pegs in force. It cannot be let go: `finish` pulls all pegs and closes it.
pub struct Pegboard<A> {
    listing: Listing<A>,
    tokens: Vec<Token>,
    pub ghost kept: { Kept listing.pegs tokens.items },
}

// Whether the peg of the atom and the sense is the token's.
fn is_of(token: &Token, atom: u8, sense: Sense) -> bool
    ensures { result ≡ is_of atom sense token.now }
{
    atom == token.atom() && sense == token.sense()
}

// Where the token of a peg lies, if it is there.
fn place_of(tokens: &[Token], atom: u8, sense: Sense) -> Option<usize>
    ensures { result ≡ position (is_of atom sense) tokens.now }
{
    tokens.iter().position(|token| is_of(token, atom, sense))
}

// Pulls with the token of a peg in force, which is never refused.
fn lift<A: Approximator>(listing: &mut Listing<A>, token: Token)
    requires { standing listing.old.pegs token.atom token.sense ≡ true }
    ensures leaves { listing.new ≡ begun listing.old (without_peg listing.old.pegs token.atom token.sense) }
    ensures law { (h : History) → Ran A.Approximator h listing.old → Ran A.Approximator (Pull token.atom token.sense (Ok tt) ∷ h) listing.new }
{
    listing.pull(token).unwrap()
}

impl<A: Approximator> Pegboard<A> {
    // Begins a listing of the settled board, without pegs, or hands the board back where too many atoms are open.
    pub fn list(alloc: Global, settled: Settled<A>) -> Result<Pegboard<A>, Refused<Settled<A>>>
        ensures gives { MatchResult result
            (λ b. (list_gives settled ≡ Ok b.listing) × (b.tokens.items ≡ []))
            (λ e. list_gives settled ≡ Err e) }
        ensures law { Settles (meaning A.Approximator settled.pile) settled.bounds → IfOk result (λ b. Ran A.Approximator [] b.listing) }
    {
        Ok(Pegboard {
            listing: settled.list()?,
            tokens: Vec::new(alloc),
        })
    }

    // The following stable interpretation that agrees with the pegs, or no more.
    pub fn next(&mut self) -> Option<Interpretation>
        ensures gives { Listable A.Approximator self.old.listing → Sought (WantedOf A.Approximator self.old.listing) self.old.listing.last result }
        ensures leaves { self.new.listing ≡ moved_on self.old.listing result }
        ensures law { (h : History) → Ran A.Approximator h self.old.listing → Ran A.Approximator (Next result ∷ h) self.new.listing }
    {
        self.listing.next()
    }

    // How many stable interpretations agree with the pegs.
    pub fn tally(&self) -> u32
        ensures gives { Listable A.Approximator self.now.listing → Counted (WantedOf A.Approximator self.now.listing) result }
        ensures law { (h : History) → Ran A.Approximator h self.now.listing → Ran A.Approximator (Tally result ∷ h) self.now.listing }
    {
        self.listing.tally()
    }

    // Begins anew.
    pub fn rewind(&mut self)
        ensures leaves { self.new.listing ≡ begun self.old.listing self.old.listing.pegs }
        ensures law { (h : History) → Ran A.Approximator h self.old.listing → Ran A.Approximator (Rewind ∷ h) self.new.listing }
    {
        self.listing.rewind();
    }

    // How many pegs are in force.
    pub fn pegs(&self) -> u32
        ensures { result ≡ pegs_count self.now.listing.pegs }
    {
        self.tokens.len() as u32
    }

    // Pegs the atom and begins anew; or says why not. Room for the token is made first, so that it is never lost.
    pub fn peg(&mut self, atom: u8, sense: Sense) -> Result<(), PegFault>
        ensures gives { PegAnswer (peg_fault (A.width self.old.listing.pile) (standing self.old.listing.pegs) atom) self.old.listing self.new.listing atom sense result }
        ensures room { result ≡ Err PegFault.Memory → vec_capacity self.old.tokens ≤ vec_len self.old.tokens }
        ensures law { (h : History) → Ran A.Approximator h self.old.listing → Ran A.Approximator (after_peg atom sense result h) self.new.listing }
    {
        self.tokens.reserve(1)?;
        let token = self.listing.peg(atom, sense)?;
        self.tokens.push_reserved(token);
        Ok(())
    }

    // Takes the peg out and begins anew; or says that no such peg is in force.
    pub fn pull(&mut self, atom: u8, sense: Sense) -> Result<(), BenchFault>
        ensures gives { result ≡ pull_told (pull_fault (standing self.old.listing.pegs) atom sense) }
        ensures leaves { self.new.listing ≡ pull_leaves (pull_fault (standing self.old.listing.pegs) atom sense) self.old.listing (record { atom = atom; sense = sense }) }
        ensures law { (h : History) → Ran A.Approximator h self.old.listing → Ran A.Approximator (Pull atom sense result ∷ h) self.new.listing }
    {
        let Some(place) = place_of(&self.tokens, atom, sense) else {
            return Err(BenchFault::NotInForce(atom));
        };
        let token = self.tokens.remove(place);
        lift(&mut self.listing, token);
        Ok(())
    }

    // Pulls all pegs and closes, which is never refused.
    pub fn finish(self) -> Settled<A>
        ensures { result ≡ unlisted self.listing }
    {
        let Pegboard {
            mut listing,
            mut tokens,
        } = self;
        while let Some(token) = tokens.pop() {
            lift(&mut listing, token);
        }
        tokens.destroy_empty();
        listing.close().unwrap()
    }
}
