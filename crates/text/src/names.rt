// The names of a sheet's atoms, each kept as its place in the text.
ghost use Rattle.std.specs.Prelude.{◌≡◌, ◌<◌, ◌≤◌, length, take, Some, None};
ghost use Rattle.std.specs.Str.{bytes_eq};
ghost use Rattle.tables.specs.Rows.{in_use};
ghost use Rattle.text.specs.Names.{part_of, names_of, parts, atom_among, atom_named};

use tables::rows::Rows;
use tables::table::Place;

// The most atoms that a sheet has.
const MAX_ATOMS: usize = 64;

// The part of a text at a place, the empty part if the place is not in it.
pub fn part<'a>(text: &'a [u8], place: Place) -> &'a [u8]
    ensures { result.now ≡ part_of text.now place }
{
    let from = usize::from(place.from);
    let end = from + usize::from(place.len);
    text.get(from..end).unwrap_or(&[])
}

// The atom that a word names: the number of the first place that holds the word.
pub fn atom_of(text: &[u8], places: &[Place], word: &[u8]) -> Option<u8>
    ensures below { elim result [ None ↦ (0 ≤ 0) | Some atom ↦ (atom < length places.now) × (atom < 64) ] }
    ensures is { result ≡ atom_named text.now places.now word.now }
{
    places[..places.len().min(MAX_ATOMS)]
        .iter()
        .position(|place| is_word(part(text, *place), word))
        .map(|i| i as u8)
}

// The names that stand at the first 64 places, cut out of the text. There is room for each.
pub fn names_at<'a>(text: &'a [u8], places: &[Place]) -> Rows<&'a [u8], MAX_ATOMS>
    ensures { parts (in_use 64 result) ≡ names_of text.now (take 64 places.now) }
{
    let mut names: Rows<&[u8], MAX_ATOMS> = Rows::new(&[][..]);
    for place in &places[..places.len().min(MAX_ATOMS)] {
        let _ = names.push(part(text, *place));
    }
    names
}

// Whether a name is the word. Most names differ in their length or their last byte.
fn is_word(name: &[u8], word: &[u8]) -> bool
    ensures { result ≡ bytes_eq name.now word.now }
{
    name.len() == word.len() && name.last() == word.last() && name == word
}

// The atom that a word names: the number of the first name that is the word.
pub fn named(names: &[&[u8]], word: &[u8]) -> Option<u8>
    ensures below { elim result [ None ↦ (0 ≤ 0) | Some atom ↦ (atom < length names.now) × (atom < 64) ] }
    ensures is { result ≡ atom_among 0 (parts (take 64 names.now)) word.now }
{
    names[..names.len().min(MAX_ATOMS)]
        .iter()
        .position(|name| is_word(name, word))
        .map(|i| i as u8)
}
