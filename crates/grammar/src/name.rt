// A name line: one name, lawful and not given before.
ghost use Rattle.std.specs.Prelude.{◌≡◌, take};
ghost use Rattle.text.specs.Names.{names_of};
ghost use Rattle.text.specs.Words.{said};
ghost use Rattle.grammar.specs.declared.name.NameState.TheVariants.{Start};
ghost use Rattle.grammar.specs.declared.wrong.Wrong.TheVariants.{Misplaced};
ghost use Rattle.grammar.specs.Names.{name_next, name_done};

use super::line::{LineKind, Standing};
use super::wrong::Wrong;
use tables::table::Place;
use text::names::atom_of;
use text::word::Word;

// A state like those of the other kinds of line, and no `Option`, which would say less: here, too, a word moves the state on.
#[derive(Clone, Copy)]
pub enum NameState {
    Start,
    Named(Place),
}

// A name line of a text: the places above are those of the names above.
#[derive(Clone, Copy)]
pub struct NameLine<'a> {
    pub text: &'a [u8],
}

impl LineKind for NameLine<'_> {
    type State = NameState;

    type Row = Place;

    ghost begins = { Start };

    ghost missing = { Misplaced };

    ghost follows = { λ line above from. name_next (names_of line.text.now (take 64 above)) from };

    ghost gives = { name_done };

    fn start(&self) -> NameState {
        NameState::Start
    }

    fn next(&self, at: &Standing<Place>, state: NameState, word: Word) -> Result<NameState, Wrong> {
        match state {
            NameState::Start => {
                let bytes = word.name().ok_or(Wrong::BadName)?;
                if atom_of(self.text, at.above, bytes).is_some() {
                    return Err(Wrong::BadName);
                }
                Ok(NameState::Named(Place {
                    from: at.from,
                    len: bytes.len().min(255) as u8,
                }))
            }
            NameState::Named(_) => Err(Wrong::Misplaced),
        }
    }

    fn done(&self, state: NameState) -> Result<Place, Wrong> {
        match state {
            NameState::Named(place) => Ok(place),
            NameState::Start => Err(Wrong::Misplaced),
        }
    }
}
