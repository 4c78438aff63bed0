// A sheet that is refused: the refusal, the line where it stands, and a caret under the column.
ghost use Rattle.std.specs.Prelude.{◌≡◌, OnOk};
ghost use Rattle.std.specs.Option.{option_copied};
ghost use Rattle.std.specs.Io.KnownBytes.{Appends};
ghost use Rattle.keeper.specs.Refusals.{shown_byte, numbered_line, shown_line, caret_lines, spot_lines, refused_lines};

use faults::{BenchFault, Spot};
use std::io;
use std::io::Write;

// A byte as it is shown: one that is no printable character as a question mark.
fn shown(byte: u8) -> u8
    ensures { result ≡ shown_byte byte }
{
    if byte == b' ' || byte.is_ascii_graphic() {
        byte
    } else {
        b'?'
    }
}

// The line of a number, from 1, if there is one.
fn line_of(text: &[u8], number: u32) -> Option<&[u8]>
    ensures { option_copied result ≡ numbered_line text.now number }
{
    let before = number.checked_sub(1)?;
    text.split(|byte| *byte == b'\n').nth(before as usize)
}

// Writes a line of the text as it is shown.
fn write_line<W: Write>(out: &mut W, line: &[u8]) -> io::Result<()>
    ensures { OnOk result (Appends (W.contents out.old) (W.contents out.new) (shown_line line.now)) }
{
    for byte in line {
        out.write_all(&[shown(*byte)])?;
    }
    writeln!(out)
}

// Writes a caret under the column.
fn write_caret<W: Write>(out: &mut W, column: u32) -> io::Result<()>
    ensures { OnOk result (Appends (W.contents out.old) (W.contents out.new) (caret_lines column)) }
{
    if column == 0 {
        return Ok(());
    }
    let width = column as usize;
    writeln!(out, "{:>width$}", "^")
}

// Writes the line of a spot, if there is one, and the caret.
fn write_spot<W: Write>(out: &mut W, text: &[u8], spot: Spot) -> io::Result<()>
    ensures { OnOk result (Appends (W.contents out.old) (W.contents out.new) (spot_lines text.now spot)) }
{
    let Some(line) = line_of(text, spot.line) else {
        return Ok(());
    };
    write_line(out, line)?;
    write_caret(out, spot.column)
}

// Writes the refusal of a sheet's text.
pub fn write_refused<W: Write>(out: &mut W, text: &[u8], fault: BenchFault) -> io::Result<()>
    ensures { OnOk result (Appends (W.contents out.old) (W.contents out.new) (refused_lines text.now fault)) }
{
    writeln!(out, "refused {fault}")?;
    write_spot(out, text, fault.spot())
}
