// The contents of a sheet: how many of each there are.
ghost use Rattle.std.specs.Prelude.{◌≡◌, take, drop, OnOk};
ghost use Rattle.std.specs.Result.{result_map_both};
ghost use Rattle.text.specs.Lines.{lines_left};
ghost use Rattle.grammar.specs.Verdicts.{count_read, contents_read, past_lines};
ghost use Rattle.sheet.specs.Sections.{counts_in, announced_in};

use super::lines::read_row;
use faults::{SheetFault, Spot};
use grammar::{CountLine, Standing};
use text::reader::Reader;

// What each line of the contents counts, and from which number to which.
const MARKS: CountLine = CountLine {
    what: b"marks",
    low: 1,
    high: 64,
};

const LOADS: CountLine = CountLine {
    what: b"loads",
    low: 0,
    high: 32,
};

const RULES: CountLine = CountLine {
    what: b"rules",
    low: 0,
    high: 128,
};

const RELAYS: CountLine = CountLine {
    what: b"relays",
    low: 0,
    high: 64,
};

#[derive(Clone, Copy)]
pub(super) struct Contents {
    pub(super) marks: u8,
    pub(super) loads: u8,
    pub(super) rules: u8,
    pub(super) relays: u8,
}

impl Contents {
    // How many lines are announced, these four among them.
    pub(super) fn announced(self) -> u32
        ensures { result ≡ announced_in self }
    {
        4 + u32::from(self.marks)
            + u32::from(self.loads)
            + u32::from(self.rules)
            + u32::from(self.relays)
    }
}

// The number of the next line, which is to be this line of the contents.
fn read_count(reader: &mut Reader, number: u32, kind: CountLine) -> Result<u8, SheetFault>
    ensures gives { result ≡ count_read kind.entry.what.now kind.entry.low kind.entry.high number (lines_left reader.old) }
    ensures leaves { OnOk result (lines_left reader.new ≡ drop 1 (lines_left reader.old)) }
    ensures moves { OnOk result (reader.new.position ≡ past_lines reader.old.position (take 1 (lines_left reader.old))) }
{
    if !reader.has_line() {
        return Err(SheetFault::Contents(Spot::new(number, 0)));
    }
    let at = Standing {
        above: &[],
        from: 0,
    };
    read_row(&kind, &at, reader.line())
}

// The four lines of the contents.
pub(super) fn read_contents(reader: &mut Reader) -> Result<Contents, SheetFault>
    ensures gives { contents_read (lines_left reader.old) ≡ result_map_both counts_in (λ fault. fault) result }
    ensures leaves { OnOk result (lines_left reader.new ≡ drop 4 (lines_left reader.old)) }
    ensures moves { OnOk result (reader.new.position ≡ past_lines reader.old.position (take 4 (lines_left reader.old))) }
{
    let marks = read_count(reader, 1, MARKS)?;
    let loads = read_count(reader, 2, LOADS)?;
    let rules = read_count(reader, 3, RULES)?;
    let relays = read_count(reader, 4, RELAYS)?;
    Ok(Contents {
        marks,
        loads,
        rules,
        relays,
    })
}
