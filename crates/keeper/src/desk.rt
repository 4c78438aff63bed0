// The desk: performs a command at a pegboard, and gives the reply.
// The board and the marks stay two arguments: the board is lent to be changed, by `keep`, which has to finish it; the marks are only
// read.
ghost use Rattle.engine.specs.Histories.{History};
ghost use Rattle.engine.specs.Listings.{Ran};
ghost use Rattle.keeper.specs.Names.{named};
ghost use Rattle.keeper.specs.Desk.{PegTold, PullTold, Told, AnswersLine};

use super::command::Command;
use super::marks::Marks;
use super::reply::Reply;
use super::standing::Standing;
use approx::Approximator;
use engine::Sense;
use faults::BenchFault;
use pegboard::{PegFault, Pegboard};

// Pegs the mark of a name.
fn peg<'a, A: Approximator>(
    board: &mut Pegboard<A>,
    marks: Marks<'_>,
    name: &'a str,
    sense: Sense,
) -> Reply<'a>
    ensures { (h : History) → Ran A.Approximator h board.old.listing → (k : History) × (PegTold (named marks.entry.names.now name.now) name.now sense result h k × Ran A.Approximator k board.new.listing) }
{
    match marks.atom_of(name) {
        None => Reply::Refused(marks.no_such(), name),
        Some(atom) => match board.peg(atom, sense) {
            Ok(()) => Reply::Pegged(name, sense),
            Err(PegFault::Bench(fault)) => Reply::Refused(fault, name),
            Err(PegFault::Memory) => Reply::NoMemory,
        },
    }
}

// Pulls the peg of the mark of a name.
fn pull<'a, A: Approximator>(
    board: &mut Pegboard<A>,
    marks: Marks<'_>,
    name: &'a str,
    sense: Sense,
) -> Reply<'a>
    ensures { (h : History) → Ran A.Approximator h board.old.listing → (k : History) × (PullTold (named marks.entry.names.now name.now) name.now sense result h k × Ran A.Approximator k board.new.listing) }
{
    match marks.atom_of(name) {
        None => Reply::Refused(marks.no_such(), name),
        Some(atom) => match board.pull(atom, sense) {
            Ok(()) => Reply::Pulled(name, sense),
            Err(fault) => Reply::Refused(fault, name),
        },
    }
}

// Performs the command.
pub fn perform<'a, A: Approximator>(
    board: &mut Pegboard<A>,
    marks: Marks<'a>,
    command: Command<'a>,
) -> Reply<'a>
    ensures { (h : History) → Ran A.Approximator h board.old.listing → (k : History) × (Told marks.entry board.old.listing.pegs command.entry result h k × Ran A.Approximator k board.new.listing) }
{
    match command {
        Command::Next => match board.next() {
            Some(on) => Reply::Standing(Standing { marks, on }),
            None => Reply::NoMore,
        },
        Command::Peg(name, sense) => peg(board, marks, name, sense),
        Command::Pull(name, sense) => pull(board, marks, name, sense),
        Command::Rewind => {
            board.rewind();
            Reply::Rewound
        }
        Command::Tally => Reply::Total(board.tally()),
        Command::Marks => Reply::States(marks),
        Command::Close => match board.pegs() {
            0 => Reply::Closed,
            pegs => Reply::Refused(BenchFault::PegsInForce(pegs), ""),
        },
    }
}

// Replies to a line: performs the command that it says, or tells why it says none.
pub fn reply<'a, A: Approximator>(
    board: &mut Pegboard<A>,
    marks: Marks<'a>,
    line: &'a str,
) -> Reply<'a>
    ensures { AnswersLine A.Approximator marks.entry line.now board.old.listing board.new.listing result }
{
    match Command::read(line) {
        Ok(command) => perform(board, marks, command),
        Err(misread) => Reply::Misread(misread),
    }
}
