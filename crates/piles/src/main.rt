// Settles piles that no sheet makes: one three layers deep, a berth over a cut-out over two joined frameworks, at several
// first places; and one rule whose load is judged by the plain and by the bound reading.
#![tactic(auto)]

use aggregates::{Bound, Plain, Reading};
use approx::Approximator;
use atoms::Bounds;
use engine::Board;
use faults::BenchFault;
use frameworks::{Framework, RelayTable};
use layers::{Berth, CutOut, Joined, TriggerTable};
use programs::RuleProgram;
use sheet::read;
use std::{fmt, io};
use tables::table::Table;

fn left() -> Framework {
    let mut lines = RelayTable::new();
    lines.set_line(0, 0);
    lines.set_line(1, 1);
    lines.set_line(2, 2);
    Framework::new(3, lines)
}

fn right() -> Framework {
    let mut lines = RelayTable::new();
    lines.set_line(3, 0b10);
    Framework::new(4, lines)
}

fn pile() -> CutOut<Joined<Framework, Framework>> {
    let mut triggers = TriggerTable::new();
    triggers.set_triggers(2, 1);
    CutOut::new(Joined::new(left(), right()), triggers)
}

// The settled bounds of what is berthed at a first place.
fn berthed<A: Approximator + Drop>(pile: A, first: u16) -> Result<Bounds, BenchFault> {
    let berth = Berth::new(pile, first)?;
    Ok(Board::new(berth).settle()?.bounds())
}

// The settled bounds of `p if load 0` with the load `sum >= 0 1 p`: whatever p is, the sum is not below 0.
fn read_by<R: Reading + Drop>(reading: R) -> Result<Bounds, BenchFault> {
    let mut table = Table::fresh();
    read(
        &mut table,
        b"marks 1\nloads 1\nrules 1\nrelays 0\np\nsum >= 0 1 p\np if load 0\n",
    )?;
    Ok(
        Board::new(RuleProgram::of(&table, reading))
            .settle()?
            .bounds(),
    )
}

// What bounds are told of. Printed as it is: a text made of it first would take memory, which this program needs for nothing else.
#[derive(Clone, Copy)]
enum Title {
    Reading(&'static str),
    First(u16),
}

impl fmt::Display for Title {
    fn fmt<W: fmt::Write>(&self, f: &mut fmt::Formatter<W>) -> fmt::Result {
        match self {
            Title::Reading(name) => f.write_str(name),
            Title::First(place) => write!(f, "first {place}"),
        }
    }
}

fn print_bounds(
    rt: &impl Print,
    title: Title,
    bounds: Result<Bounds, BenchFault>,
) -> io::Result<()> {
    match bounds {
        Ok(Bounds { lower, upper }) => println!(rt; "{title}: {lower} {upper}"),
        Err(fault) => {
            let number = fault.number();
            let column = fault.spot().column;
            println!(rt; "refused {number} {column}")
        }
    }
}

fn main(rt: HostRuntime) -> io::Result<()> {
    print_bounds(&rt, Title::Reading("plain"), read_by(Plain))?;
    print_bounds(&rt, Title::Reading("bound"), read_by(Bound))?;
    for first in [0, 5, 60, 61, 65535] {
        print_bounds(&rt, Title::First(first), berthed(pile(), first))?;
    }
    Ok(())
}
