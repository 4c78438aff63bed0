// The marks of a sheet: their names, and what is settled of them.
ghost use Rattle.std.specs.Prelude.{◌≡◌, ◌<◌, ◌≤◌, length, IfOk, IfSome};
ghost use Rattle.faults.specs.declared.BenchFault.TheVariants.{NoSuchAtom};
ghost use Rattle.keeper.specs.Names.{named, SheetNames};

use atoms::Bounds;
use faults::BenchFault;
use sheet::name_of;
use std::alloc::Global;
use std::io;
use tables::table::Table;

// The most marks that a sheet has.
const MOST: u8 = 64;

// The names, by the numbers of their atoms, and the settled bounds.
#[derive(Clone, Copy)]
pub struct Marks<'a> {
    pub names: &'a [&'a str],
    pub bounds: Bounds,
    ghost few: { length names.now ≤ 64 },
}

// Where a word stands among names.
fn place_of(names: &[&str], word: &str) -> Option<usize>
    ensures is { result ≡ named names.now word.now }
    ensures inside { IfSome result (λ i. i < length names.now) }
{
    names.iter().position(|name| *name == word)
}

impl<'a> Marks<'a> {
    // The marks of these names.
    pub(super) fn new(names: &'a [&'a str], bounds: Bounds) -> Marks<'a>
        requires { length names.now ≤ 64 }
        ensures names { result.names.now ≡ names.now }
        ensures bounds { result.bounds ≡ bounds }
    {
        Marks { names, bounds }
    }

    // The atom that a name is of, if there is such a mark.
    pub fn atom_of(self, name: &str) -> Option<u8>
        ensures { result ≡ named self.entry.names.now name.now }
    {
        let place = place_of(self.names, name)?;
        Some(place as u8)
    }

    // The refusal of a name that is of no mark.
    pub fn no_such(self) -> BenchFault
        ensures { result ≡ NoSuchAtom (length self.entry.names.now) }
    {
        BenchFault::NoSuchAtom(self.names.len() as u8)
    }
}

// The names that stand in a sheet's text.
pub fn names_of<'a>(alloc: Global, table: &Table, text: &'a [u8]) -> io::Result<Vec<&'a str>>
    ensures { IfOk result (λ names. SheetNames table.now text.now names.items) }
{
    let mut names = Vec::new(alloc);
    for atom in 0..table.width.min(MOST) {
        let name = name_of(table, text, atom).unwrap();
        let name = str::from_utf8(name).map_err(|_| io::Error::from(io::ErrorKind::InvalidData))?;
        names.push(name)?;
    }
    Ok(names)
}
