// The framework of a sheet's relay lines.
ghost use Rattle.std.specs.Prelude.{◌≡◌};
ghost use Rattle.tables.specs.Rows.{in_use};
ghost use Rattle.frameworks.specs.Makers.{set_of, lines_of, framework_of};

use super::framework::Framework;
use super::table::RelayTable;
use atoms::{Interpretation, only};
use tables::table::{RelayLine, Table};

// The set of some atoms.
fn set_of(atoms: &[u8]) -> Interpretation
    ensures { result ≡ set_of atoms.now }
{
    atoms.iter().fold(0, |set, atom| set | only(*atom))
}

// The relay lines as written, each as an atom and the set of its attackers.
fn lines_of(lines: &[RelayLine]) -> RelayTable
    ensures { result ≡ lines_of lines.now }
{
    let mut table = RelayTable::new();
    for line in lines {
        table.set_line(line.atom, set_of(line.attackers.as_slice()));
    }
    table
}

impl Framework {
    // The framework of the relay lines that a sheet's table holds. No `From`: the rest of the table is left out.
    pub fn of(table: &Table) -> Framework
        ensures { result ≡ framework_of table.now }
    {
        Framework::new(table.width, lines_of(table.relays.as_slice()))
    }
}
