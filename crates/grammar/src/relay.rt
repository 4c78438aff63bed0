// A relay line: an atom that has none yet, `!`, and its attackers.
ghost use Rattle.std.specs.Prelude.{◌≡◌};
ghost use Rattle.text.specs.Words.{said};
ghost use Rattle.grammar.specs.declared.relay.RelayState.TheVariants.{Start};
ghost use Rattle.grammar.specs.declared.wrong.Wrong.TheVariants.{Misplaced};
ghost use Rattle.grammar.specs.Names.{known};
ghost use Rattle.grammar.specs.Relays.{has_line, relay_next, relay_done};

use super::line::{LineKind, Standing};
use super::names::Names;
use super::rows::with_item;
use super::wrong::Wrong;
use tables::table::RelayLine;
use text::word::{Key, Word};

#[derive(Clone, Copy)]
pub enum RelayState {
    Start,
    Named(u8),
    Attackers(RelayLine),
}

// A line of a relay, by the names of the atoms; no line above is of the same atom.
#[derive(Clone, Copy)]
pub struct RelayRow<'a> {
    pub names: Names<'a>,
}

// Whether an atom has one of these lines.
fn has_line(atom: u8, lines: &[RelayLine]) -> bool
    ensures { result ≡ has_line atom lines.now }
{
    lines.iter().any(|line| line.atom == atom)
}

impl LineKind for RelayRow<'_> {
    type State = RelayState;

    type Row = RelayLine;

    ghost begins = { Start };

    ghost missing = { Misplaced };

    ghost follows = { λ line above from. relay_next (known line.names) above };

    ghost gives = { relay_done };

    fn start(&self) -> RelayState {
        RelayState::Start
    }

    fn next(
        &self,
        at: &Standing<RelayLine>,
        state: RelayState,
        word: Word,
    ) -> Result<RelayState, Wrong> {
        match state {
            RelayState::Start => {
                let atom = self.names.wanted(word)?;
                if has_line(atom, at.above) {
                    return Err(Wrong::SecondLine);
                }
                Ok(RelayState::Named(atom))
            }
            RelayState::Named(atom) if word.key() == Some(Key::Bang) => {
                Ok(RelayState::Attackers(RelayLine::new(atom)))
            }
            RelayState::Attackers(line) if line.attackers.has_room() => {
                let atom = self.names.wanted(word)?;
                Ok(RelayState::Attackers(RelayLine {
                    attackers: with_item(line.attackers, atom),
                    ..line
                }))
            }
            _ => Err(Wrong::Misplaced),
        }
    }

    fn done(&self, state: RelayState) -> Result<RelayLine, Wrong> {
        match state {
            RelayState::Attackers(line) => Ok(line),
            _ => Err(Wrong::Misplaced),
        }
    }
}
