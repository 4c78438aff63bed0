// From a sheet's bytes to the bench's whole answer, as a value: each mark with `on`, `off` or `open`, each stable
// interpretation as a line `standing`, and their number; or the refusal. The rule part, by the bound reading, is joined
// with the relay part. specs/Answers.antt says what the answer is.
#![tactic(auto)]

ghost use Rattle.std.specs.Prelude.{◌≡◌, ◌<◌, [], OnOk, IfOk};
ghost use Rattle.std.specs.List.{flat_map};
ghost use Rattle.std.specs.Io.KnownBytes.{Appends};
ghost use Rattle.approx.specs.Meanings.{meaning};
ghost use Rattle.approx.specs.Settling.{Settles};
ghost use Rattle.grammar.specs.Verdicts.{verdict};
ghost use Rattle.sheet.specs.Reads.{table_after};
ghost use Rattle.engine.specs.Listings.{Ran};
ghost use Rattle.report.specs.Sheets.{SettlesTo};
ghost use Rattle.report.specs.Lines.{name, state_line, state_lines, name_if_on, standing_line, refusal_line};
ghost use Rattle.report.specs.Answers.{IsListing, IsSettledAnswer, IsAnswer, AppendsSome, HasOneAnswer};

use aggregates::Bound;
use approx::Approximator;
use atoms::{Bounds, Interpretation, has};
use engine::{Board, Listing, Settled};
use faults::BenchFault;
use frameworks::Framework;
use layers::Joined;
use programs::RuleProgram;
use sheet::{name_of, read};
use std::alloc::Global;
use std::io;
use std::io::Write;
use tables::table::Table;

// What a sheet comes to.
pub type Pile = Joined<RuleProgram<Bound>, Framework>;

// A sheet that is read: what it says, and the text in which its names stand.
#[derive(Clone, Copy)]
struct Sheet<'a> {
    table: &'a Table,
    text: &'a [u8],
}

// That an atom is below the width is asked by each method that is given one: a type for an atom of a sheet would lend the sheet
// again, for the one call that follows.
impl Sheet<'_> {
    // Writes an atom's name. A `match`: an atom below the width has one, and nothing is owed of any other.
    fn write_name<W: Write>(self, out: &mut W, atom: u8) -> io::Result<()>
        requires { atom < self.table.now.width }
        ensures { OnOk result (Appends (W.contents out.old) (W.contents out.new) (name self.entry.text.now self.entry.table.now atom)) }
    {
        match name_of(self.table, self.text, atom) {
            Ok(name) => out.write_all(name),
            Err(_) => Ok(()),
        }
    }

    // Writes the line of an atom's state.
    fn write_state<W: Write>(self, out: &mut W, bounds: Bounds, atom: u8) -> io::Result<()>
        requires { atom < self.table.now.width }
        ensures { OnOk result (Appends (W.contents out.old) (W.contents out.new) (state_line self.entry.text.now self.entry.table.now bounds atom)) }
    {
        self.write_name(out, atom)?;
        let state = bounds.state(atom);
        writeln!(out, " {state}")
    }

    // Writes the lines of all atoms' states.
    fn write_states<W: Write>(self, out: &mut W, bounds: Bounds) -> io::Result<()>
        ensures { OnOk result (Appends (W.contents out.old) (W.contents out.new) (state_lines self.entry.text.now self.entry.table.now bounds)) }
    {
        for atom in 0..self.table.width {
            self.write_state(out, bounds, atom)?;
        }
        Ok(())
    }

    // Writes what the line of a standing says of an atom.
    fn write_if_on<W: Write>(
        self,
        out: &mut W,
        standing: Interpretation,
        atom: u8,
    ) -> io::Result<()>
        requires { atom < self.table.now.width }
        ensures { OnOk result (Appends (W.contents out.old) (W.contents out.new) (name_if_on self.entry.text.now self.entry.table.now standing atom)) }
    {
        if !has(standing, atom) {
            return Ok(());
        }
        write!(out, " ")?;
        self.write_name(out, atom)
    }

    // Writes the line of a standing.
    fn write_standing<W: Write>(self, out: &mut W, standing: Interpretation) -> io::Result<()>
        ensures { OnOk result (Appends (W.contents out.old) (W.contents out.new) (standing_line self.entry.text.now self.entry.table.now standing)) }
    {
        write!(out, "standing")?;
        for atom in 0..self.table.width {
            self.write_if_on(out, standing, atom)?;
        }
        writeln!(out)
    }

    // Writes the lines of some standings, one after another.
    fn write_standings<W: Write>(self, out: &mut W, standings: &[Interpretation]) -> io::Result<()>
        ensures { OnOk result (Appends (W.contents out.old) (W.contents out.new) (flat_map (standing_line self.entry.text.now self.entry.table.now) standings.now)) }
    {
        for standing in standings {
            self.write_standing(out, *standing)?;
        }
        Ok(())
    }

    // Writes the lines of all standings, which one walk gathers, and of their number.
    fn write_listing<W: Write, A: Approximator>(
        self,
        alloc: Global,
        out: &mut W,
        listing: &Listing<A>,
    ) -> io::Result<()>
        requires { Ran A.Approximator [] listing.now }
        ensures { OnOk result (AppendsSome (IsListing self.entry.text.now self.entry.table.now (meaning A.Approximator listing.now.pile)) (W.contents out.old) (W.contents out.new)) }
    {
        let mut standings = Vec::new(alloc);
        listing.standings(&mut standings)?;
        self.write_standings(out, &standings)?;
        let total = standings.len();
        writeln!(out, "total {total}")
    }

    // Writes the answer to a sheet whose bounds settle.
    fn write_settled<W: Write, A: Approximator + Drop>(
        self,
        alloc: Global,
        out: &mut W,
        board: Settled<A>,
    ) -> io::Result<()>
        requires { Settles (meaning A.Approximator board.pile) board.bounds }
        ensures { OnOk result (AppendsSome (IsSettledAnswer self.entry.text.now self.entry.table.now (meaning A.Approximator board.pile)) (W.contents out.old) (W.contents out.new)) }
    {
        self.write_states(out, board.bounds())?;
        match board.list() {
            Ok(listing) => self.write_listing(alloc, out, &listing),
            Err(refused) => write_refusal(out, refused.into()),
        }
    }
}

// Writes the line of a refusal.
fn write_refusal<W: Write>(out: &mut W, fault: BenchFault) -> io::Result<()>
    ensures { OnOk result (Appends (W.contents out.old) (W.contents out.new) (refusal_line fault)) }
{
    writeln!(out, "refused {fault}")
}

// The settled board of a sheet, which is read into the table; or why there is none.
pub fn settled(table: &mut Table, text: &[u8]) -> Result<Settled<Pile>, BenchFault>
    ensures holds { table.new ≡ table_after table.old (verdict text.now) }
    ensures settles { SettlesTo ⟦<Pile as Approximator>⟧ (verdict text.now) result }
{
    read(table, text)?;
    let pile = Joined::new(RuleProgram::of(table, Bound), Framework::of(table));
    Ok(Board::new(pile).settle()?)
}

// Writes the whole answer to a sheet: a text has one only.
fn write_answer<W: Write>(alloc: Global, out: &mut W, text: &[u8]) -> io::Result<()>
    ensures right { OnOk result (AppendsSome (IsAnswer text.now) (W.contents out.old) (W.contents out.new)) }
    ensures one { HasOneAnswer text.now }
{
    let mut table = Table::fresh();
    match settled(&mut table, text) {
        Ok(board) => Sheet {
            table: &table,
            text,
        }
        .write_settled(alloc, out, board),
        Err(fault) => write_refusal(out, fault),
    }
}

// The whole answer to a sheet.
pub fn answer(alloc: Global, text: &[u8]) -> io::Result<Vec<u8>>
    ensures right { IfOk result (λ bytes. IsAnswer text.now bytes.items) }
    ensures one { HasOneAnswer text.now }
{
    let mut bytes = Vec::new(alloc);
    write_answer(alloc, &mut bytes, text)?;
    Ok(bytes)
}
