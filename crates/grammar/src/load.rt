// A load line: a kind, a comparison, a limit and entries.
ghost use Rattle.std.specs.Prelude.{◌≡◌};
ghost use Rattle.text.specs.Words.{said};
ghost use Rattle.grammar.specs.declared.load.LoadState.TheVariants.{Start};
ghost use Rattle.grammar.specs.declared.wrong.Wrong.TheVariants.{Misplaced};
ghost use Rattle.grammar.specs.Names.{known};
ghost use Rattle.grammar.specs.Said.{kind_said, comparison_said};
ghost use Rattle.grammar.specs.Wrongs.{or_wrong};
ghost use Rattle.grammar.specs.Loads.{with_entry, condition, entry_begun, load_next, load_done};

use super::line::{LineKind, Standing};
use super::names::Names;
use super::rows::with_item;
use super::wrong::Wrong;
use tables::table::{Aggregate, Comparison, Entry, Kind};
use text::word::{Key, Word};

#[derive(Clone, Copy)]
pub enum LoadState {
    Start,
    Kinded(Kind),
    Compared(Kind, Comparison),
    Entries(Aggregate),
    Weighted(Aggregate, i16),
    Negated(Aggregate, i16),
}

// A load line, by the names of the atoms.
#[derive(Clone, Copy)]
pub struct LoadLine<'a> {
    pub names: Names<'a>,
}

// The kind of aggregate that a word begins. This and the next stay two: of a generic one each use would have to show again what
// `TryFrom` gives of its type.
fn kind(word: Word) -> Result<Kind, Wrong>
    ensures { result ≡ or_wrong (kind_said (said word.entry).0) Misplaced (λ kind. kind) }
{
    let key = word.key().ok_or(Wrong::Misplaced)?;
    Kind::try_from(key).map_err(|_| Wrong::Misplaced)
}

// The comparison that a word is.
fn comparison(word: Word) -> Result<Comparison, Wrong>
    ensures { result ≡ or_wrong (comparison_said (said word.entry).0) Misplaced (λ comparison. comparison) }
{
    let key = word.key().ok_or(Wrong::Misplaced)?;
    Comparison::try_from(key).map_err(|_| Wrong::Misplaced)
}

// The aggregate with one entry more.
fn with_entry(aggregate: Aggregate, weight: i16, atom: u8, negated: bool) -> Aggregate
    ensures { result ≡ with_entry aggregate weight atom negated }
{
    let entry = Entry {
        weight,
        atom,
        negated,
    };
    Aggregate {
        entries: with_item(aggregate.entries, entry),
        ..aggregate
    }
}

impl LoadLine<'_> {
    // The condition of an entry: `not`, or the name of an atom.
    fn begin_condition(
        &self,
        aggregate: Aggregate,
        weight: i16,
        word: Word,
    ) -> Result<LoadState, Wrong>
        ensures { result ≡ condition (known self.now.names) aggregate weight (said word.entry).0 }
    {
        if word.key() == Some(Key::Not) {
            return Ok(LoadState::Negated(aggregate, weight));
        }
        let atom = self.names.wanted(word)?;
        Ok(LoadState::Entries(with_entry(aggregate, weight, atom, false)))
    }

    // An entry of a sum begins with its weight; one of a count weighs 1 and begins with its condition.
    fn begin_entry(&self, aggregate: Aggregate, word: Word) -> Result<LoadState, Wrong>
        ensures { result ≡ entry_begun (known self.now.names) aggregate aggregate.kind (said word.entry).0 }
    {
        match aggregate.kind {
            Kind::Sum => {
                let weight = word.number_in(-10000, 10000).ok_or(Wrong::BadNumber)?;
                Ok(LoadState::Weighted(aggregate, weight as i16))
            }
            Kind::Count => self.begin_condition(aggregate, 1, word),
        }
    }
}

impl LineKind for LoadLine<'_> {
    type State = LoadState;

    type Row = Aggregate;

    ghost begins = { Start };

    ghost missing = { Misplaced };

    ghost follows = { λ line above from. load_next (known line.names) };

    ghost gives = { load_done };

    fn start(&self) -> LoadState {
        LoadState::Start
    }

    fn next(
        &self,
        _at: &Standing<Aggregate>,
        state: LoadState,
        word: Word,
    ) -> Result<LoadState, Wrong> {
        match state {
            LoadState::Start => Ok(LoadState::Kinded(kind(word)?)),
            LoadState::Kinded(kind) => Ok(LoadState::Compared(kind, comparison(word)?)),
            LoadState::Compared(kind, comparison) => {
                let limit = word.number_in(-1000000, 1000000).ok_or(Wrong::BadNumber)?;
                Ok(LoadState::Entries(Aggregate::new(kind, comparison, limit)))
            }
            LoadState::Entries(aggregate) if aggregate.entries.has_room() => {
                self.begin_entry(aggregate, word)
            }
            LoadState::Entries(_) => Err(Wrong::Misplaced),
            LoadState::Weighted(aggregate, weight) => {
                self.begin_condition(aggregate, weight, word)
            }
            LoadState::Negated(aggregate, weight) => {
                let atom = self.names.wanted(word)?;
                Ok(LoadState::Entries(with_entry(aggregate, weight, atom, true)))
            }
        }
    }

    fn done(&self, state: LoadState) -> Result<Aggregate, Wrong> {
        match state {
            LoadState::Entries(aggregate) => Ok(aggregate),
            _ => Err(Wrong::Misplaced),
        }
    }
}
