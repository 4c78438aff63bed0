// A text that is read line by line, and a line that is read word by word.
ghost use Rattle.std.specs.Prelude.{◌≡◌, ℕ, ◌+◌, ◌≤◌, length};

use faults::Spot;

mod walk;

// A text, with the position up to which it is read and the number of lines read.
// The fact in it keeps each number below what a spot can hold.
#[derive(Drop)]
pub struct Reader<'a> {
    text: &'a [u8],
    position: usize,
    lines: u32,
    ghost counted: { (lines ≤ position) × (position ≤ length text.now + 1) × (length text.now ≤ 16384) },
}

// A line with its number, and the position in it up to which it is read.
// No reader at another byte: a line counts nothing, and all its bytes stay, since its end is told too.
#[derive(Drop)]
pub struct Line<'a> {
    bytes: &'a [u8],
    position: usize,
    number: u32,
    ghost counted: { (position ≤ length bytes.now + 1) × (length bytes.now ≤ 16384) },
}

// A word of a line, with its spot.
#[derive(Clone, Copy)]
pub struct Piece<'a> {
    pub bytes: &'a [u8],
    pub at: Spot,
}

impl Reader<'_> {
    // How many bytes are read: where the next line begins.
    pub fn position(&self) -> usize
        ensures { result ≡ self.now.position }
    {
        self.position
    }

    // How many lines are read.
    pub fn lines_read(&self) -> u32
        ensures { result ≡ self.now.lines }
    {
        self.lines
    }
}

impl Line<'_> {
    // The line's number, from 1.
    pub fn number(&self) -> u32
        ensures { result ≡ self.now.number }
    {
        self.number
    }
}
