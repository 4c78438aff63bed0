// A line of the contents: a word and a number.
ghost use Rattle.std.specs.Prelude.{◌≡◌};
ghost use Rattle.text.specs.Words.{said};
ghost use Rattle.grammar.specs.declared.count.CountState.TheVariants.{Start};
ghost use Rattle.grammar.specs.declared.wrong.Wrong.TheVariants.{Contents};
ghost use Rattle.grammar.specs.Counts.{count_next, count_done};

use super::line::{LineKind, Standing};
use super::names::natural;
use super::wrong::Wrong;
use text::word::Word;

#[derive(Clone, Copy)]
pub enum CountState {
    Start,
    Worded,
    Counted(u8),
}

// A line that counts: its first word is `what`, and its number is from `low` to `high`.
#[derive(Clone, Copy)]
pub struct CountLine<'a> {
    pub what: &'a [u8],
    pub low: u8,
    pub high: u8,
}

impl LineKind for CountLine<'_> {
    type State = CountState;

    type Row = u8;

    ghost begins = { Start };

    ghost missing = { Contents };

    ghost follows = { λ line above from. count_next line.what.now line.low line.high };

    ghost gives = { count_done };

    fn start(&self) -> CountState {
        CountState::Start
    }

    fn next(&self, _at: &Standing<u8>, state: CountState, word: Word) -> Result<CountState, Wrong> {
        let CountLine { what, low, high } = *self;
        match state {
            CountState::Start if word.name() == Some(what) => Ok(CountState::Worded),
            CountState::Worded => {
                let n = natural(word).ok_or(Wrong::Contents)?;
                if !(low..=high).contains(&n) {
                    return Err(Wrong::Contents);
                }
                Ok(CountState::Counted(n))
            }
            _ => Err(Wrong::Contents),
        }
    }

    fn done(&self, state: CountState) -> Result<u8, Wrong> {
        match state {
            CountState::Counted(n) => Ok(n),
            CountState::Start | CountState::Worded => Err(Wrong::Contents),
        }
    }
}
