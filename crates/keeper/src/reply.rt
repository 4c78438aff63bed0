// What is replied at the desk, each in one line.
ghost use Rattle.std.specs.Prelude.{◌≡◌, Some};
ghost use Rattle.keeper.specs.Texts.{side_word, refused_text, misread_text, reply_text, is_last};

use super::command::Misread;
use super::marks::Marks;
use super::standing::Standing;
use engine::Sense;
use faults::BenchFault;
use std::fmt;

// What a command or the end of input comes to. A refusal has the name that was asked for.
#[derive(Clone, Copy)]
pub enum Reply<'a> {
    Standing(Standing<'a>),
    NoMore,
    Pegged(&'a str, Sense),
    Pulled(&'a str, Sense),
    Rewound,
    Total(u32),
    States(Marks<'a>),
    Closed,
    Ended(u32),
    Refused(BenchFault, &'a str),
    NoMemory,
    Misread(Misread<'a>),
}

impl Reply<'_> {
    // Whether nothing is asked after it.
    pub fn is_last(&self) -> bool
        ensures { result ≡ is_last self.now }
    {
        matches!(self, Reply::Closed)
    }
}

// The word of a side. It stands here, and is no `Display` of the engine's: the words are the keeper's own.
fn side(sense: Sense) -> &'static str
    ensures { result.now ≡ side_word sense }
{
    match sense {
        Sense::On => "on",
        Sense::Off => "off",
    }
}

// A refusal, and the name that was asked for.
#[derive(Clone, Copy)]
struct Refusal<'a> {
    fault: BenchFault,
    name: &'a str,
}

impl fmt::Display for Refusal<'_> {
    ghost output = { λ r. Some (refused_text r.fault r.name.now) };

    fn fmt<W: fmt::Write>(&self, f: &mut fmt::Formatter<W>) -> fmt::Result {
        let name = self.name;
        let fault = self.fault;
        let number = fault.number();
        match fault {
            BenchFault::NoSuchAtom(_) => write!(f, "refused {number}: there is no mark '{name}'"),
            BenchFault::Pegged(_) => write!(f, "refused {number}: {name} has a peg already"),
            BenchFault::NotInForce(_) => write!(
                f,
                "refused {number}: no such peg of {name} is in force"
            ),
            BenchFault::PegsInForce(pegs) => write!(
                f,
                "refused {number}: pegs are in force, {pegs} of them"
            ),
            _ => write!(f, "refused {fault}"),
        }
    }
}

impl fmt::Display for Misread<'_> {
    ghost output = { λ m. Some (misread_text m) };

    fn fmt<W: fmt::Write>(&self, f: &mut fmt::Formatter<W>) -> fmt::Result {
        match *self {
            Misread::NoSuch(word) => write!(f, "there is no command '{word}'"),
            Misread::Say(form) => write!(f, "say: {form}"),
        }
    }
}

impl fmt::Display for Reply<'_> {
    ghost output = { λ r. Some (reply_text r) };

    fn fmt<W: fmt::Write>(&self, f: &mut fmt::Formatter<W>) -> fmt::Result {
        match *self {
            Reply::Standing(standing) => write!(f, "{standing}"),
            Reply::NoMore => write!(f, "no more"),
            Reply::Pegged(name, sense) => {
                let side = side(sense);
                write!(f, "{name} is pegged {side}")
            }
            Reply::Pulled(name, sense) => {
                let side = side(sense);
                write!(f, "{name} is no longer pegged {side}")
            }
            Reply::Rewound => write!(f, "begun anew"),
            Reply::Total(total) => write!(f, "total {total}"),
            Reply::States(marks) => write!(f, "{marks}"),
            Reply::Closed => write!(f, "closed"),
            Reply::Ended(pegs) => write!(f, "the input is over: pegs pulled {pegs}, closed"),
            Reply::Refused(fault, name) => {
                let refusal = Refusal { fault, name };
                write!(f, "{refusal}")
            }
            Reply::NoMemory => write!(f, "memory is short, and nothing has changed"),
            Reply::Misread(misread) => write!(f, "{misread}"),
        }
    }
}
