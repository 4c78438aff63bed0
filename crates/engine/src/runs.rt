// Whole runs of a listing: a script of commands is performed, and what each call gave is written down.
ghost use Rattle.std.specs.Prelude.{◌≡◌, ◌+◌, ◌<◌, ◌≤◌, true, List, [], ◌∷◌, length, is_ok, vec_len, vec_capacity, MatchResult};
ghost use Rattle.engine.specs.Scripts.{events, OneMore, Acts, Performs, Plays, PlaysFront, RunLaw, InFull};
ghost use Rattle.engine.specs.declared.runs.Command.TheVariants.{Peg, Pull};
ghost use Rattle.engine.specs.declared.runs.Unfinished.TheVariants.{NotListed, NotSettled};

use super::board::{Board, Settled};
use super::listing::{Listing, Token};
use super::pegs::Sense;
use approx::Approximator;
use atoms::Interpretation;
use faults::{BenchFault, Refused};
use std::alloc::AllocError;

// What was called at a listing, and what it gave.
#[derive(Clone, Copy)]
pub enum Event {
    Next(Option<Interpretation>),
    Peg(u8, Sense, Result<(), BenchFault>),
    Pull(u8, Sense, Result<(), BenchFault>),
    Rewind,
    Tally(u32),
}

// What is asked of a listing; a pull names the place of its token in the pool. Values and no closures: a script is read and kept.
#[derive(Clone, Copy)]
pub enum Command {
    Next,
    Peg(u8, Sense),
    Pull(usize),
    Rewind,
    Tally,
}

// Why a run did not perform its whole script: memory ran short after a front of it, or no listing was begun.
#[derive(Drop)]
pub enum Unfinished<A> {
    Short(Listing<A>),
    NotListed(Refused<Settled<A>>),
    NotSettled(Refused<Board<A>>),
}

impl<A> From<Refused<Settled<A>>> for Unfinished<A> {
    ghost from_gives = { λ e r. r ≡ NotListed e };

    fn from(e: Refused<Settled<A>>) -> Unfinished<A> {
        Unfinished::NotListed(e)
    }
}

impl<A> From<Refused<Board<A>>> for Unfinished<A> {
    ghost from_gives = { λ e r. r ≡ NotSettled e };

    fn from(e: Refused<Board<A>>) -> Unfinished<A> {
        Unfinished::NotSettled(e)
    }
}

// Pegs the atom; a token that is granted goes to the pool, which has room for it. Listing, pool and log stay
// parameters here and below, and the room in the pool a clause of each: every one has an owner of its own, and a type for
// them would be loans, made and ended at every call.
fn peg_into<A: Approximator>(
    listing: &mut Listing<A>,
    atom: u8,
    sense: Sense,
    tokens: &mut Vec<Token>,
) -> Event
    requires { vec_len tokens.old < vec_capacity tokens.old }
    ensures acts { Acts A.Approximator (Peg atom sense) tokens.old.items tokens.new.items listing.old listing.new (result ∷ []) }
    ensures room { OneMore (vec_len tokens.old) (vec_capacity tokens.old) (vec_len tokens.new) (vec_capacity tokens.new) }
{
    // a `map` would hide the push in a closure, and be no plainer
    match listing.peg(atom, sense) {
        Ok(token) => {
            tokens.push_reserved(token);
            Event::Peg(atom, sense, Ok(()))
        }
        Err(fault) => Event::Peg(atom, sense, Err(fault)),
    }
}

// Pulls with the token at the place; a token that comes back goes to the end of the pool. Without a token there is no call.
fn pull_from<A: Approximator>(
    listing: &mut Listing<A>,
    place: usize,
    tokens: &mut Vec<Token>,
) -> Option<Event>
    requires { vec_len tokens.old < vec_capacity tokens.old }
    ensures acts { Acts A.Approximator (Pull place) tokens.old.items tokens.new.items listing.old listing.new (events result) }
    ensures room { OneMore (vec_len tokens.old) (vec_capacity tokens.old) (vec_len tokens.new) (vec_capacity tokens.new) }
{
    if place >= tokens.len() {
        return None;
    }
    let token = tokens.remove(place);
    let atom = token.atom();
    let sense = token.sense();
    // a `match`, as above: one arm puts the token back
    match listing.pull(token) {
        Ok(()) => Some(Event::Pull(atom, sense, Ok(()))),
        Err(refused) => {
            tokens.push_reserved(refused.back);
            Some(Event::Pull(atom, sense, Err(refused.fault)))
        }
    }
}

// Performs one command; the pool has room for a token.
fn act<A: Approximator>(
    listing: &mut Listing<A>,
    command: Command,
    tokens: &mut Vec<Token>,
) -> Option<Event>
    requires { vec_len tokens.old < vec_capacity tokens.old }
    ensures acts { Acts A.Approximator command tokens.old.items tokens.new.items listing.old listing.new (events result) }
    ensures room { OneMore (vec_len tokens.old) (vec_capacity tokens.old) (vec_len tokens.new) (vec_capacity tokens.new) }
{
    match command {
        Command::Next => Some(Event::Next(listing.next())),
        Command::Peg(atom, sense) => Some(peg_into(listing, atom, sense, tokens)),
        Command::Pull(place) => pull_from(listing, place, tokens),
        Command::Rewind => {
            listing.rewind();
            Some(Event::Rewind)
        }
        Command::Tally => Some(Event::Tally(listing.tally())),
    }
}

// Performs one command and writes down what it gave. Room is made first, so that want of memory loses neither token nor event.
fn perform<A: Approximator>(
    listing: &mut Listing<A>,
    command: Command,
    tokens: &mut Vec<Token>,
    log: &mut Vec<Event>,
) -> Result<(), AllocError>
    ensures acts { MatchResult result
        (λ _. Performs A.Approximator command tokens.old.items tokens.new.items log.old.items log.new.items listing.old listing.new)
        (λ _. (tokens.new.items ≡ tokens.old.items) × (log.new.items ≡ log.old.items) × (listing.new ≡ listing.old)) }
    ensures room { OneMore (vec_len tokens.old) (vec_capacity tokens.old) (vec_len tokens.new) (vec_capacity tokens.new)
        × OneMore (vec_len log.old) (vec_capacity log.old) (vec_len log.new) (vec_capacity log.new) }
    ensures whole { vec_len tokens.old < vec_capacity tokens.old → vec_len log.old < vec_capacity log.old → is_ok result ≡ true }
{
    tokens.reserve(1)?;
    log.reserve(1)?;
    if let Some(event) = act(listing, command, tokens) {
        log.push_reserved(event);
    }
    Ok(())
}

// Performs the script, or a front of it where memory runs short, on a listing that may have any history behind it.
pub fn play<A: Approximator>(
    listing: &mut Listing<A>,
    script: &[Command],
    tokens: &mut Vec<Token>,
    log: &mut Vec<Event>,
) -> Result<(), AllocError>
    ensures plays { MatchResult result
        (λ _. Plays A.Approximator script.now tokens.old.items tokens.new.items log.old.items log.new.items listing.old listing.new)
        (λ _. PlaysFront A.Approximator script.now tokens.old.items tokens.new.items log.old.items log.new.items listing.old listing.new) }
    ensures whole { vec_len tokens.old + length script.now ≤ vec_capacity tokens.old → vec_len log.old + length script.now ≤ vec_capacity log.old → is_ok result ≡ true }
{
    for command in script {
        perform(listing, *command, tokens, log)?;
    }
    Ok(())
}

// Settles the board, begins a listing of it and performs the script.
pub fn run<A: Approximator>(
    board: Board<A>,
    script: &[Command],
    tokens: &mut Vec<Token>,
    log: &mut Vec<Event>,
) -> Result<Listing<A>, Unfinished<A>>
    ensures law { RunLaw A.Approximator board script.now tokens.old.items tokens.new.items log.old.items log.new.items result }
    ensures whole { vec_len tokens.old + length script.now ≤ vec_capacity tokens.old → vec_len log.old + length script.now ≤ vec_capacity log.old → InFull result }
{
    let mut listing = board.settle()?.list()?;
    // a `match`, since either arm takes the listing
    match play(&mut listing, script, tokens, log) {
        Ok(()) => Ok(listing),
        Err(_) => Err(Unfinished::Short(listing)),
    }
}
