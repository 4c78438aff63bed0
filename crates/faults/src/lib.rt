// Why a sheet is refused: one enum for each layer, the lower inside the higher, so that `?` carries a fault up.
// Each fault has a number, the layer that found it, and its spot in the text; specs/Faults.antt is the one table of them.
#![tactic(auto)]

ghost use Rattle.std.specs.Prelude.{◌≡◌, Some};
ghost use Rattle.faults.specs.declared.BenchFault.TheVariants.{Sheet};
ghost use Rattle.faults.specs.declared.SheetFault.TheVariants.{Text};
ghost use Rattle.faults.specs.Faults.{at, text_told, sheet_told, bench_told, layer_name, told_text};

use std::error::Error;
use std::fmt;

// A place in a text: a line and a column, both from 1. A fault of the text as a whole stands at 0 0.
#[derive(Clone, Copy, Debug, PartialEq, Eq)]
pub struct Spot {
    pub line: u32,
    pub column: u32,
}

// Who found a fault: the text layer, the sheet's grammar, or the bench that runs the sheet.
#[derive(Clone, Copy, Debug, PartialEq, Eq)]
pub enum Layer {
    Text,
    Sheet,
    Bench,
}

// What is told of a fault. The number is the one that the format prints and keepers look up; which fault it is, is an enum.
#[derive(Clone, Copy, Debug, PartialEq, Eq)]
pub struct Told {
    pub number: u8,
    pub layer: Layer,
    pub spot: Spot,
}

// Why bytes are no sheet text at all.
#[derive(Clone, Copy, Debug, PartialEq, Eq)]
pub enum TextFault {
    TooLong,
    NoEnd,
    BadByte(Spot),
    Spacing(Spot),
}

// Why a text is no sheet.
#[derive(Clone, Copy, Debug, PartialEq, Eq)]
pub enum SheetFault {
    Text(TextFault),
    Contents(Spot),
    LineCount(u32),
    BadName(Spot),
    NotAName(Spot),
    Misplaced(Spot),
    BadNumber(Spot),
    SecondLine(Spot),
}

// Why the bench gives no answer.
#[derive(Clone, Copy, Debug, PartialEq, Eq)]
pub enum BenchFault {
    Sheet(SheetFault),
    BerthTooWide(u32),
    Crossed,
    TooManyOpen(u32),
    NoSuchAtom(u8),
    Pegged(u8),
    NotInForce(u8),
    PegsInForce(u32),
}

// What was refused, handed back as it was, with the reason. It can be let go where what it holds can.
#[derive(Drop)]
pub struct Refused<T> {
    pub fault: BenchFault,
    pub back: T,
}

impl From<TextFault> for SheetFault {
    ghost from_gives = { λ e r. r ≡ Text e };

    fn from(e: TextFault) -> SheetFault {
        SheetFault::Text(e)
    }
}

impl From<SheetFault> for BenchFault {
    ghost from_gives = { λ e r. r ≡ Sheet e };

    fn from(e: SheetFault) -> BenchFault {
        BenchFault::Sheet(e)
    }
}

impl Layer {
    // The layer's word in what the bench prints.
    pub fn name(self) -> &'static str
        ensures { result.now ≡ layer_name self }
    {
        match self {
            Layer::Text => "text",
            Layer::Sheet => "sheet",
            Layer::Bench => "bench",
        }
    }
}

impl<T: Drop> From<Refused<T>> for BenchFault {
    ghost from_gives = { λ refused fault. fault ≡ refused.fault };

    fn from(refused: Refused<T>) -> BenchFault {
        let Refused { fault, back: _ } = refused;
        fault
    }
}

impl fmt::Display for Layer {
    ghost output = { λ layer. Some (layer_name layer) };

    fn fmt<W: fmt::Write>(&self, f: &mut fmt::Formatter<W>) -> fmt::Result {
        f.write_str(self.name())
    }
}

impl fmt::Display for Told {
    ghost output = { λ told. Some (told_text told) };

    fn fmt<W: fmt::Write>(&self, f: &mut fmt::Formatter<W>) -> fmt::Result {
        let number = self.number;
        let layer = self.layer;
        let line = self.spot.line;
        let column = self.spot.column;
        write!(f, "{number} {layer} {line} {column}")
    }
}

impl fmt::Display for BenchFault {
    ghost output = { λ fault. Some (told_text (bench_told fault)) };

    fn fmt<W: fmt::Write>(&self, f: &mut fmt::Formatter<W>) -> fmt::Result {
        let told = self.told();
        write!(f, "{told}")
    }
}

impl Error for BenchFault {}

impl Spot {
    // Where a fault of the text as a whole stands.
    const NOWHERE: Spot = Spot { line: 0, column: 0 };

    // The spot at a line and a column.
    pub fn new(line: u32, column: u32) -> Spot
        ensures { result ≡ at line column }
    {
        Spot { line, column }
    }
}

impl TextFault {
    fn told(self) -> Told
        ensures { result ≡ text_told self }
    {
        let (number, spot) = match self {
            TextFault::TooLong => (1, Spot::NOWHERE),
            TextFault::NoEnd => (2, Spot::NOWHERE),
            TextFault::BadByte(spot) => (3, spot),
            TextFault::Spacing(spot) => (4, spot),
        };
        Told {
            number,
            layer: Layer::Text,
            spot,
        }
    }
}

impl SheetFault {
    fn told(self) -> Told
        ensures { result ≡ sheet_told self }
    {
        let (number, spot) = match self {
            SheetFault::Text(fault) => return fault.told(),
            SheetFault::Contents(spot) => (5, spot),
            SheetFault::LineCount(lines) => (6, Spot::new(lines, 0)),
            SheetFault::BadName(spot) => (7, spot),
            SheetFault::NotAName(spot) => (8, spot),
            SheetFault::Misplaced(spot) => (9, spot),
            SheetFault::BadNumber(spot) => (10, spot),
            SheetFault::SecondLine(spot) => (11, spot),
        };
        Told {
            number,
            layer: Layer::Sheet,
            spot,
        }
    }
}

impl BenchFault {
    fn told(self) -> Told
        ensures { result ≡ bench_told self }
    {
        let (number, spot) = match self {
            BenchFault::Sheet(fault) => return fault.told(),
            BenchFault::BerthTooWide(width) => (13, Spot::new(0, width)),
            BenchFault::Crossed => (14, Spot::NOWHERE),
            BenchFault::TooManyOpen(count) => (15, Spot::new(0, count)),
            BenchFault::NoSuchAtom(atom) => (16, Spot::new(0, atom as u32)),
            BenchFault::Pegged(atom) => (17, Spot::new(0, atom as u32)),
            BenchFault::NotInForce(atom) => (18, Spot::new(0, atom as u32)),
            BenchFault::PegsInForce(count) => (19, Spot::new(0, count)),
        };
        Told {
            number,
            layer: Layer::Bench,
            spot,
        }
    }

    // The fault's number.
    pub fn number(self) -> u8
        ensures { result ≡ (bench_told self).number }
    {
        self.told().number
    }

    // The layer that found it.
    pub fn layer(self) -> Layer
        ensures { result ≡ (bench_told self).layer }
    {
        self.told().layer
    }

    // Where it stands in the text.
    pub fn spot(self) -> Spot
        ensures { result ≡ (bench_told self).spot }
    {
        self.told().spot
    }
}
