// A line of input, read as a command: its words are split by one space.
ghost use Rattle.std.specs.Prelude.{◌≡◌, ◌≢◌, ℕ, true, false, List, MatchResult, IfNone, IfSome};
ghost use Rattle.std.specs.Option.{option_copied};
ghost use Rattle.engine.specs.declared.pegs.Sense.{Sense};
ghost use Rattle.keeper.specs.Texts.{side_word};
ghost use Rattle.keeper.specs.declared.command.Command.{Command};
ghost use Rattle.keeper.specs.Commands.{named_text, command_text, IsOneWord, names_a_mark, Says, first_word, form_of, IsReason, SaysNone, SaysOne};

use engine::Sense;

// What may be asked at the desk. A name and a side stay two, here, in replies and at the desk: a peg of the engine is an atom and a
// side, and only a token holds those together.
#[derive(Clone, Copy, Debug, PartialEq, Eq)]
pub enum Command<'a> {
    Next,
    Peg(&'a str, Sense),
    Pull(&'a str, Sense),
    Rewind,
    Tally,
    Marks,
    Close,
}

// Why a line is no command: its first word is none, or the words after it are not those that it takes.
#[derive(Clone, Copy, Debug, PartialEq, Eq)]
pub enum Misread<'a> {
    NoSuch(&'a str),
    Say(&'static str),
}

// The side that a word says. It stands here, and is no `FromStr` of the engine's: the words are the keeper's own.
fn side_of(word: &str) -> Option<Sense>
    ensures some { IfSome result (λ s. word.now ≡ side_word s) }
    ensures none { IfNone result ((s : Sense) → word.now ≢ side_word s) }
{
    match word {
        "on" => Some(Sense::On),
        "off" => Some(Sense::Off),
        _ => None,
    }
}

// The name and the side that words say: a pair, which `of_words` takes apart at once, so that a struct is no plainer.
fn named(words: &str) -> Option<(&str, Sense)>
    ensures some { IfSome result (λ x. (words.now ≡ named_text x.0.now x.1) × IsOneWord x.0.now) }
    ensures none { IfNone result ((name : List ℕ) (s : Sense) → IsOneWord name → words.now ≢ named_text name s) }
{
    let (name, side) = words.split_once(' ')?;
    Some((name, side_of(side)?))
}

// The command that is one word.
fn alone(word: &str) -> Option<Command<'static>>
    ensures some { IfSome result (λ c. Says word.now c) }
    ensures none { IfNone result ((c : Command) → names_a_mark c ≡ false → word.now ≢ command_text c) }
{
    match word {
        "next" => Some(Command::Next),
        "rewind" => Some(Command::Rewind),
        "tally" => Some(Command::Tally),
        "marks" => Some(Command::Marks),
        "close" => Some(Command::Close),
        _ => None,
    }
}

// How the command of a first word is said.
fn form(verb: &str) -> Option<&'static str>
    ensures { option_copied result ≡ form_of verb.now }
{
    match verb {
        "next" => Some("next"),
        "peg" => Some("peg NAME on|off"),
        "pull" => Some("pull NAME on|off"),
        "rewind" => Some("rewind"),
        "tally" => Some("tally"),
        "marks" => Some("marks"),
        "close" => Some("close"),
        _ => None,
    }
}

// The first word of a line.
fn first_word(line: &str) -> &str
    ensures { result.now ≡ first_word line.now }
{
    line.split_once(' ').map_or(line, |(verb, _)| verb)
}

// Why a line that says no command says none.
fn reason(line: &str) -> Misread<'_>
    ensures { IsReason (form_of (first_word line.now)) (first_word line.now) result }
{
    let verb = first_word(line);
    // A `match`: `map_or(.., Misread::Say)` was tried, and is not covered, since the lifetime of what it gives stands in no argument.
    match form(verb) {
        Some(form) => Misread::Say(form),
        None => Misread::NoSuch(verb),
    }
}

impl<'a> Command<'a> {
    // The command of several words.
    fn of_words(line: &'a str) -> Option<Command<'a>>
        ensures some { IfSome result (λ c. Says line.now c) }
        ensures none { IfNone result ((c : Command) → names_a_mark c ≡ true → ¬ Says line.now c) }
    {
        if let Some(words) = line.strip_prefix("peg ") {
            let (name, sense) = named(words)?;
            return Some(Command::Peg(name, sense));
        }
        let words = line.strip_prefix("pull ")?;
        let (name, sense) = named(words)?;
        Some(Command::Pull(name, sense))
    }

    // The command that a line says.
    pub fn read(line: &'a str) -> Result<Command<'a>, Misread<'a>>
        ensures right { MatchResult result (λ c. Says line.now c) (λ why. SaysNone line.now why) }
        ensures one { SaysOne line.now }
    {
        alone(line)
            .or_else(|| Command::of_words(line))
            .ok_or_else(|| reason(line))
    }
}
