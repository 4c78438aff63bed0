// How a reader goes on to its next line, and a line to its next word.
ghost use Rattle.std.specs.Prelude.{◌≡◌, ℕ, ◌+◌, ◌<◌, ◌≤◌, [], ◌∷◌, length, take, drop, Some, None, ◌≢◌, slice_index, slice_index_or};
ghost use Rattle.text.specs.Lines.{whole, lines_left, no_line, as_line, has_line, lines_past, position_past, pieces, words_left, end_of, as_placed};

use super::super::check::MAX_BYTES;
use super::{Line, Piece, Reader};
use faults::Spot;

// The index of the first byte that is `stop`, or the length where there is none: where a piece ends either way, so no `Option`.
fn find(bytes: &[u8], stop: u8) -> usize
    ensures within { result ≤ length bytes.now }
    ensures before { (k : ℕ) → k < result → slice_index bytes.now k ≢ stop }
    ensures found { result < length bytes.now → slice_index bytes.now result ≡ stop }
{
    bytes.iter().position(|x| *x == stop).unwrap_or(bytes.len())
}

// The piece that begins at a position, up to the byte `stop` or the end.
#[tactic(auto, using(crate::proofs::Cuts::cut_first))]
fn piece_at(bytes: &[u8], position: usize, stop: u8) -> &[u8]
    requires { position < length bytes.now }
    ensures cut { pieces stop (drop position bytes.now) ≡ result.now ∷ pieces stop (drop (position + (length result.now + 1)) bytes.now) }
    ensures within { position + length result.now ≤ length bytes.now }
{
    let left = &bytes[position..];
    let n = find(left, stop);
    &left[..n]
}

impl<'a> Reader<'a> {
    // A reader at the start of a text. A text that is too long is read as far as a text may go.
    #[tactic(auto, using(std::proofs::lemmas::List::take_min))]
    pub fn new(text: &'a [u8]) -> Reader<'a>
        ensures text { whole result ≡ take 16384 text.now }
        ensures position { result.position ≡ 0 }
        ensures lines { result.lines ≡ 0 }
    {
        Reader {
            text: &text[..MAX_BYTES.min(text.len())],
            position: 0,
            lines: 0,
        }
    }

    // Whether a line is left to read.
    #[tactic(auto, using(crate::proofs::Cuts::line_left))]
    pub fn has_line(&self) -> bool
        ensures { result ≡ has_line self.now }
    {
        self.position < self.text.len()
    }

    // The next line; past the end an empty one, again with the last number.
    // No `Option`: a section reads as many lines as were counted before, and would have to refuse a want that cannot be. The contents,
    // whose lines are not counted yet, ask `has_line`.
    pub fn line(&mut self) -> Line<'a>
        ensures gives { as_line result ≡ slice_index_or (lines_left self.old) 0 (no_line self.old) }
        ensures fresh { result.position ≡ 0 }
        ensures text { whole self.new ≡ whole self.old }
        ensures leaves { lines_left self.new ≡ drop 1 (lines_left self.old) }
        ensures counts { self.new.lines ≡ lines_past self.old }
        ensures moves { self.new.position ≡ position_past self.old (as_line result).bytes }
    {
        let text = self.text;
        if self.position >= text.len() {
            return Line {
                bytes: &[],
                position: 0,
                number: self.lines,
            };
        }
        let bytes = piece_at(text, self.position, b'\n');
        self.position += bytes.len() + 1;
        self.lines += 1;
        Line {
            bytes,
            position: 0,
            number: self.lines,
        }
    }
}

impl<'a> Line<'a> {
    // The spot just past the line's end, where a word is missed.
    pub fn end(&self) -> Spot
        ensures { result ≡ end_of (as_line self.now) }
    {
        Spot::new(self.number, self.bytes.len() as u32 + 1)
    }

    // The next word.
    pub fn word(&mut self) -> Option<Piece<'a>>
        ensures kept { as_line self.new ≡ as_line self.old }
        ensures gives { elim result [ None ↦ (words_left self.old ≡ []) × (words_left self.new ≡ []) | Some p ↦ (words_left self.old ≡ as_placed p ∷ words_left self.new) ] }
    {
        let line = self.bytes;
        if self.position >= line.len() {
            return None;
        }
        let bytes = piece_at(line, self.position, b' ');
        let at = Spot::new(self.number, self.position as u32 + 1);
        self.position += bytes.len() + 1;
        Some(Piece { bytes, at })
    }
}
