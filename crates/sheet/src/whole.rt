// A whole sheet.
ghost use Rattle.std.specs.Prelude.{◌≡◌, ℕ, ◌+◌, ◌≤◌, [], length, take, drop};
ghost use Rattle.tables.specs.Rows.{laid, in_use};
ghost use Rattle.tables.specs.Tables.{zero_place};
ghost use Rattle.text.specs.Lines.{lines_left, lines_of};
ghost use Rattle.text.specs.Text.{text_verdict};
ghost use Rattle.grammar.specs.Verdicts.{names_read, rest_read, onward, lines_read, verdict};
ghost use Rattle.sheet.specs.Sections.{LawfulContents, counts_in, announced_in};
ghost use Rattle.sheet.specs.Reads.{answer, table_after, RightlyRead};

use super::contents::{Contents, read_contents};
use super::sections::read_section;
use faults::SheetFault;
use grammar::{LoadLine, NameLine, Names, RelayRow, RuleLine};
use tables::rows::Rows;
use tables::table::{Aggregate, Place, RelayLine, Rule, Table};
use text::check::check_text;
use text::names::names_at;
use text::reader::Reader;

// How many lines a text has that breaks no law of the text, so that it ends with a newline.
#[tactic(auto, using(crate::proofs::Newlines::lines_counted))]
fn count_lines(text: &[u8]) -> u32
    requires { text_verdict text.now ≡ Ok tt }
    ensures { result ≡ length (lines_of text.now) }
{
    text.iter().filter(|byte| **byte == b'\n').count() as u32
}

// The lines below the names: loads, rules and relay lines.
fn read_rest(
    text: &[u8],
    contents: Contents,
    names: Rows<Place, 64>,
    reader: &mut Reader,
) -> Result<Table, SheetFault>
    requires few { LawfulContents contents }
    requires all { contents.loads + contents.rules + contents.relays ≡ length (lines_left reader.old) }
    requires named { names ≡ laid 64 zero_place (in_use 64 names) }
    ensures { result ≡ rest_read text.now (counts_in contents) (in_use 64 names) (lines_left reader.old) }
{
    let places = names.as_slice();
    let cut = names_at(text, places);
    let parts = cut.as_slice();
    let known = Names { names: parts };
    let load = LoadLine { names: known };
    let rule = RuleLine {
        names: known,
        loads: contents.loads,
    };
    let relay = RelayRow { names: known };
    let aggregates = read_section(&load, Aggregate::zero(), contents.loads, reader)?;
    let rules = read_section(&rule, Rule::zero(), contents.rules, reader)?;
    let relays = read_section(&relay, RelayLine::zero(), contents.relays, reader)?;
    Ok(Table {
        width: contents.marks,
        names,
        aggregates,
        rules,
        relays,
    })
}

// The lines below the contents: the names, then the rest.
fn read_bodies(text: &[u8], contents: Contents, reader: &mut Reader) -> Result<Table, SheetFault>
    requires few { LawfulContents contents }
    requires all { 4 + length (lines_left reader.old) ≡ announced_in contents }
    ensures { result ≡ onward (names_read text.now reader.old.position [] (take contents.marks (lines_left reader.old))) (λ places. rest_read text.now (counts_in contents) places (drop contents.marks (lines_left reader.old))) }
{
    let names = read_section(&NameLine { text }, Place::zero(), contents.marks, reader)?;
    read_rest(text, contents, names, reader)
}

// The lines of a text that breaks no law of the text.
#[tactic(auto, using(crate::proofs::Opening::opened))]
fn read_lines(text: &[u8]) -> Result<Table, SheetFault>
    requires { text_verdict text.now ≡ Ok tt }
    ensures { result ≡ lines_read text.now (lines_of text.now) }
{
    let mut reader = Reader::new(text);
    let contents = read_contents(&mut reader)?;
    let lines = count_lines(text);
    if lines != contents.announced() {
        return Err(SheetFault::LineCount(lines));
    }
    read_bodies(text, contents, &mut reader)
}

// Reads a sheet into the table by the verdict on its text.
fn read_into(table: &mut Table, text: &[u8]) -> Result<(), SheetFault>
    ensures answers { result ≡ answer (verdict text.now) }
    ensures holds { table.new ≡ table_after table.old (verdict text.now) }
{
    check_text(text)?;
    *table = read_lines(text)?;
    Ok(())
}

// Reads a sheet into the table: accepted exactly where the text writes a lawful sheet, and refused with what is wrong
// first. A refused sheet leaves the table as it was.
// `read_into` stands apart, since the third clause follows from the first two whatever the way out: here it is proved once,
// and not at each way out.
pub fn read(table: &mut Table, text: &[u8]) -> Result<(), SheetFault>
    ensures answers { result ≡ answer (verdict text.now) }
    ensures holds { table.new ≡ table_after table.old (verdict text.now) }
    ensures rightly { RightlyRead text.now table.new result }
{
    read_into(table, text)
}
