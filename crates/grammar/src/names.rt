// The names of the atoms, and what a grammar looks for in a word.
ghost use Rattle.std.specs.Prelude.{◌≡◌};
ghost use Rattle.std.specs.Option.{ok_or};
ghost use Rattle.text.specs.Words.{said};
ghost use Rattle.grammar.specs.declared.wrong.Wrong.TheVariants.{NotAName};
ghost use Rattle.grammar.specs.Names.{known};
ghost use Rattle.grammar.specs.Said.{atom_said, natural_said};

use super::wrong::Wrong;
use text::names::named;
use text::word::Word;

// The first 64 names are those of the atoms.
#[derive(Clone, Copy)]
pub struct Names<'a> {
    pub names: &'a [&'a [u8]],
}

impl<'a> Names<'a> {
    // The atom that a word names.
    #[tactic(auto, unfolding(crate::specs::Names::known))]
    pub fn atom(self, word: Word) -> Option<u8>
        ensures { result ≡ atom_said (known self.entry) (said word.entry).0 }
    {
        named(self.names, word.name()?)
    }

    // The atom that a word names, where only the name of an atom may stand.
    pub(super) fn wanted(self, word: Word) -> Result<u8, Wrong>
        ensures { result ≡ ok_or (atom_said (known self.entry) (said word.entry).0) NotAName }
    {
        self.atom(word).ok_or(Wrong::NotAName)
    }
}

// The number below 256 that a word writes without a minus.
pub(super) fn natural(word: Word) -> Option<u8>
    ensures { result ≡ natural_said 0 255 (said word.entry).0 }
{
    match word {
        Word::Number(n, _) => u8::try_from(n).ok(),
        _ => None,
    }
}
