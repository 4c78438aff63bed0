// The names of a sheet's atoms.
ghost use Rattle.std.specs.Prelude.{◌≡◌, ◌<◌, ◌≤◌, MatchResult};
ghost use Rattle.faults.specs.declared.BenchFault.TheVariants as refusals;
ghost use Rattle.tables.specs.Rows.{in_use};
ghost use Rattle.tables.specs.Tables.{zero_place};
ghost use Rattle.text.specs.Names.{part_of};
ghost use Rattle.sheet.specs.Reads.{place_of};

use faults::BenchFault;
use tables::table::{Place, Table};
use text::names::part;

// The place of an atom's name; an atom without one has the empty place.
fn place_of(table: &Table, atom: u8) -> Place
    ensures { result ≡ place_of table.now atom }
{
    let places = table.names.as_slice();
    places.get(atom as usize).copied().unwrap_or(Place::zero())
}

// The name of an atom, as a part of the text: the empty part if its place is not in that text.
pub fn name_of<'a>(table: &Table, text: &'a [u8], atom: u8) -> Result<&'a [u8], BenchFault>
    ensures { MatchResult result
        (λ name. (atom < table.now.width) × (name.now ≡ part_of text.now (place_of table.now atom)))
        (λ fault. (table.now.width ≤ atom) × (fault ≡ refusals.NoSuchAtom atom)) }
{
    if atom >= table.width {
        return Err(BenchFault::NoSuchAtom(atom));
    }
    Ok(part(text, place_of(table, atom)))
}
