// What all kinds of lines have in common.
ghost use Rattle.std.specs.Prelude.{◌≡◌, ℕ, List, Option, Result};
ghost use Rattle.std.specs.Option.{ok_or};
ghost use Rattle.text.specs.Words.{Meaning, said};
ghost use Rattle.grammar.specs.declared.wrong.Wrong.{Wrong as Fault};

use super::wrong::Wrong;
use text::word::Word;

// Where a line stands: below these rows of its section, and from this position of the text on.
#[derive(Clone, Copy)]
pub struct Standing<'a, R> {
    pub above: &'a [R],
    pub from: u16,
}

// A kind of line: a state says what has been read of the line, a word moves the state on or is wrong there, and where the
// line may end it gives a row.
pub trait LineKind {
    type State;

    type Row: Copy;

    ghost begins: { Self.State };

    ghost missing: { Fault };

    ghost follows: { Self → List Self.Row → ℕ → Self.State → Meaning → Result Self.State Fault };

    ghost gives: { Self.State → Option Self.Row };

    // Before the first word.
    fn start(&self) -> Self::State
        ensures { result ≡ begins };

    // After one word more.
    fn next(
        &self,
        at: &Standing<Self::Row>,
        state: Self::State,
        word: Word,
    ) -> Result<Self::State, Wrong>
        ensures { result ≡ follows self.now at.now.above.now at.now.from state (said word.entry).0 };

    // The row, if the line may end here, or what a missing word is.
    fn done(&self, state: Self::State) -> Result<Self::Row, Wrong>
        ensures { result ≡ ok_or (gives state) missing };
}
