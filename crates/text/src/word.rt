// What a word says.
ghost use Rattle.std.specs.Prelude.{◌≡◌};
ghost use Rattle.std.specs.Option.{option_map};
ghost use Rattle.text.specs.Keys.{kind_begun, comparison_signed};
ghost use Rattle.text.specs.Words.{key_of, name_byte, name_bytes, lawful_name, meaning, said, key_said, name_said, number_said};

use super::number::number;
use super::reader::Piece;
use faults::Spot;
use tables::table::{Comparison, Kind};

// The words and signs that have a meaning of their own.
#[derive(Clone, Copy, Debug, PartialEq, Eq)]
pub enum Key {
    If,
    Not,
    Load,
    Sum,
    Count,
    Bang,
    AtMost,
    AtLeast,
    Equal,
    Unequal,
}

// A key where another was looked for.
#[derive(Clone, Copy, Debug, PartialEq, Eq)]
pub struct OtherKey(pub Key);

impl TryFrom<Key> for Kind {
    type Error = OtherKey;

    ghost try_from_gives = { λ key r. r ≡ kind_begun key };

    fn try_from(key: Key) -> Result<Kind, OtherKey> {
        match key {
            Key::Sum => Ok(Kind::Sum),
            Key::Count => Ok(Kind::Count),
            _ => Err(OtherKey(key)),
        }
    }
}

impl TryFrom<Key> for Comparison {
    type Error = OtherKey;

    ghost try_from_gives = { λ key r. r ≡ comparison_signed key };

    fn try_from(key: Key) -> Result<Comparison, OtherKey> {
        match key {
            Key::AtMost => Ok(Comparison::AtMost),
            Key::AtLeast => Ok(Comparison::AtLeast),
            Key::Equal => Ok(Comparison::Equal),
            Key::Unequal => Ok(Comparison::Unequal),
            _ => Err(OtherKey(key)),
        }
    }
}

// A word with its spot, by what it may say wherever it stands.
#[derive(Clone, Copy)]
pub enum Word<'a> {
    Name(&'a [u8], Spot),
    Number(i32, Spot),
    Key(Key, Spot),
    Other(Spot),
}

// The key that a word is.
fn key_in(word: &[u8]) -> Option<Key>
    ensures { result ≡ key_of word.now }
{
    match word {
        b"if" => Some(Key::If),
        b"not" => Some(Key::Not),
        b"load" => Some(Key::Load),
        b"sum" => Some(Key::Sum),
        b"count" => Some(Key::Count),
        b"!" => Some(Key::Bang),
        b"<=" => Some(Key::AtMost),
        b">=" => Some(Key::AtLeast),
        b"=" => Some(Key::Equal),
        b"!=" => Some(Key::Unequal),
        _ => None,
    }
}

// Whether a byte may stand in a name.
fn of_name(byte: u8) -> bool
    ensures { result ≡ name_byte byte }
{
    byte.is_ascii_lowercase() || byte.is_ascii_digit() || byte == b'_'
}

// Whether every byte may stand in a name.
fn all_of_name(word: &[u8]) -> bool
    ensures { result ≡ name_bytes word.now }
{
    word.iter().all(|b| of_name(*b))
}

// Whether a word that is no key can be a name.
fn lawful(word: &[u8]) -> bool
    ensures { result ≡ lawful_name word.now }
{
    match word {
        [first, ..] => word.len() <= 16 && first.is_ascii_lowercase() && all_of_name(word),
        [] => false,
    }
}

// What a word says. A name is no key, since keys are tried first.
pub fn word_of<'a>(piece: Piece<'a>) -> Word<'a>
    ensures { said result ≡ (meaning piece.entry.bytes.now, piece.entry.at) }
{
    if let Some(key) = key_in(piece.bytes) {
        return Word::Key(key, piece.at);
    }
    if let Some(n) = number(piece.bytes) {
        return Word::Number(n, piece.at);
    }
    if lawful(piece.bytes) {
        return Word::Name(piece.bytes, piece.at);
    }
    Word::Other(piece.at)
}

impl<'a> Word<'a> {
    // Where the word stands.
    pub fn spot(self) -> Spot
        ensures { result ≡ (said self.entry).1 }
    {
        match self {
            Word::Name(_, spot) | Word::Number(_, spot) | Word::Key(_, spot) | Word::Other(spot) =>
                spot,
        }
    }

    // The key that the word is.
    pub fn key(self) -> Option<Key>
        ensures { result ≡ key_said (said self.entry).0 }
    {
        match self {
            Word::Key(key, _) => Some(key),
            _ => None,
        }
    }

    // The name that the word is.
    pub fn name(self) -> Option<&'a [u8]>
        ensures { option_map (λ x. x.now) result ≡ name_said (said self.entry).0 }
    {
        match self {
            Word::Name(bytes, _) => Some(bytes),
            _ => None,
        }
    }

    // The number that the word is, if that is from `low` to `high`.
    pub fn number_in(self, low: i32, high: i32) -> Option<i32>
        ensures { result ≡ number_said low high (said self.entry).0 }
    {
        match self {
            Word::Number(n, _) if low <= n && n <= high => Some(n),
            _ => None,
        }
    }
}
