// One line of any kind, read word by word from the left.
ghost use Rattle.std.specs.Prelude.{◌≡◌};
ghost use Rattle.text.specs.Lines.{words_left, as_line, end_of};
ghost use Rattle.grammar.specs.Lines.{reading};

use faults::SheetFault;
use grammar::{LineKind, Standing};
use text::reader::Line;
use text::word::word_of;

// What a line of this kind gives where it stands; or the fault of the first word that cannot stand, or of a missing one.
pub(super) fn read_row<K: LineKind>(
    kind: &K,
    at: &Standing<K::Row>,
    mut line: Line,
) -> Result<K::Row, SheetFault>
    ensures { result ≡ reading (K.follows kind.now at.now.above.now at.now.from) K.gives K.missing (end_of (as_line line.entry)) K.begins (words_left line.entry) }
{
    let end = line.end();
    let mut state = kind.start();
    'words: while let Some(piece) = line.word() {
        state = kind
            .next(at, state, word_of(piece))
            .map_err(|wrong| wrong.at(piece.at))?;
    }
    kind.done(state).map_err(|wrong| wrong.at(end))
}
