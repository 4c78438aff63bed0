// A rule program: a rule table whose aggregates a reading judges.
ghost use Rattle.std.specs.Prelude.{◌≡◌};
ghost use Rattle.atoms.specs.Bounded.{Proper};
ghost use Rattle.approx.proofs.Laws.{asked};
ghost use Rattle.programs.specs.Normal.{NormalSheet, NormalRules};
ghost use Rattle.programs.specs.Programs.{below_width, SurelyFollow, PerhapsFollow, program_meaning};
ghost use Rattle.programs.specs.Reducts.{reduced};
ghost use Rattle.programs.specs.Tables.{rule_table};
ghost use Rattle.programs.specs.Obeying.{program_lawful};

use super::rules::RuleTable;
use aggregates::Reading;
use approx::Approximator;
use atoms::{Bounds, Interpretation};
use tables::table::{Aggregate, Table};

// What the rules derive, with their aggregates as the reading takes them.
#[derive(Drop)]
pub struct RuleProgram<R> {
    table: RuleTable,
    reading: R,
}

impl<R: Reading> RuleProgram<R> {
    // The program of a rule table.
    pub fn new(table: RuleTable, reading: R) -> RuleProgram<R>
        ensures table { result.table ≡ table }
        ensures reading { result.reading ≡ reading }
    {
        RuleProgram { table, reading }
    }

    // The program of a sheet's record.
    pub fn of(table: &Table, reading: R) -> RuleProgram<R>
        ensures table { result.table ≡ rule_table table.now }
        ensures reading { result.reading ≡ reading }
        ensures normal { NormalSheet table.now → NormalRules result.table }
    {
        RuleProgram::new(RuleTable::of(table), reading)
    }

    // The rules that bar no atom of z, without their barred atoms: the reduct by z (Gelfond and Lifschitz 1988).
    pub fn reduct(&self, z: Interpretation) -> RuleTable
        ensures { result ≡ reduced z self.now.table }
    {
        self.table.reduct(z)
    }

    // The heads of the rules that fire whatever lies between the bounds. A crossed question is answered freely. This and the next
    // stay two, over one `heads`: they ask the reading another question, and turn the bounds.
    pub fn sure_heads(&self, bounds: Bounds) -> Interpretation
        ensures is { Proper (below_width self.now.table bounds) → result ≡ (program_meaning R.Reading self.now).sure bounds.lower bounds.upper }
        ensures follow { Proper (below_width self.now.table bounds) → SurelyFollow (R.Reading.sure self.now.reading) self.now.table (below_width self.now.table bounds) result }
    {
        let inside = self.table.below(bounds);
        let sure = |aggregate: &Aggregate| self.reading.sure(aggregate, inside);
        self.table.heads(inside.lower, inside.upper, sure)
    }

    // The heads of the rules that may fire on something that lies between the bounds. A crossed question is answered freely.
    pub fn may_heads(&self, bounds: Bounds) -> Interpretation
        ensures is { Proper (below_width self.now.table bounds) → result ≡ (program_meaning R.Reading self.now).may bounds.lower bounds.upper }
        ensures follow { Proper (below_width self.now.table bounds) → PerhapsFollow (R.Reading.may self.now.reading) self.now.table (below_width self.now.table bounds) result }
    {
        let inside = self.table.below(bounds);
        let may = |aggregate: &Aggregate| self.reading.may(aggregate, inside);
        self.table.heads(inside.upper, inside.lower, may)
    }
}

impl<R: Reading> Approximator for RuleProgram<R> {
    ghost width = { λ p. (program_meaning R.Reading p).width };

    ghost sure = { λ p. (program_meaning R.Reading p).sure };

    ghost may = { λ p. (program_meaning R.Reading p).may };

    ghost laws = { λ p. asked (program_lawful (record { sure = R.sure; may = R.may }) R.laws p) };

    fn width(&self) -> u8 {
        self.table.atom_count()
    }

    fn sure(&self, bounds: Bounds) -> Interpretation {
        self.sure_heads(bounds)
    }

    fn may(&self, bounds: Bounds) -> Interpretation {
        self.may_heads(bounds)
    }
}
