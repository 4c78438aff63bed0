// The rules of a sheet as sets, with its aggregates.
ghost use Rattle.std.specs.Prelude.{◌≡◌, ℕ, ◌^◌, ◌<◌, ◌≤◌, Bool, length, slice_index_or};
ghost use Rattle.std.specs.Fn.{FnReturnsAt};
ghost use Rattle.atoms.specs.Sets.{has};
ghost use Rattle.tables.specs.Rows.{in_use};
ghost use Rattle.tables.specs.Tables.{zero_aggregate};
ghost use Rattle.tables.specs.declared.table.Aggregate.{Aggregate};
ghost use Rattle.programs.specs.Clauses.{AllSay};
ghost use Rattle.programs.specs.Deriving.{derived, passing, Answers};
ghost use Rattle.programs.specs.Normal.{NormalSheet, NormalRules};
ghost use Rattle.programs.specs.Programs.{below_width};
ghost use Rattle.programs.specs.Reducts.{reduct_rows, reduced};
ghost use Rattle.programs.specs.Tables.{clauses_from, rule_table, rules_of, clauses_of, aggregates_of, width_of};

use super::clause::{Clause, Grounds};
use atoms::{Bounds, Interpretation, clipped, those, width_read};
use tables::rows::Rows;
use tables::table::{Aggregate, Rule, Table};

// At most 128 rules and 32 aggregates, over so many atoms.
#[derive(Clone, Copy)]
pub struct RuleTable {
    width: u8,
    clauses: Rows<Clause, 128>,
    aggregates: Rows<Aggregate, 32>,
}

// The rules as sets, in their order. There is room for each.
fn clauses_from(rules: &Rows<Rule, 128>) -> Rows<Clause, 128>
    ensures { result ≡ clauses_from (in_use 128 rules.now) }
{
    let mut clauses = Rows::new(Clause::fact(0));
    for rule in rules.as_slice() {
        let _ = clauses.push(Clause::of(rule));
    }
    clauses
}

// The rules that bar no atom of z, without their barred atoms. There is room for each.
fn reduct_rows(clauses: &Rows<Clause, 128>, z: Interpretation) -> Rows<Clause, 128>
    ensures { result ≡ reduct_rows z (in_use 128 clauses.now) }
{
    let mut reduct = Rows::new(Clause::fact(0));
    for clause in clauses.as_slice() {
        if clause.spares(z) {
            let _ = reduct.push(clause.unbarred());
        }
    }
    reduct
}

// The numbers of the aggregates that pass: each is judged once for a question. There are 32 at most, so the cast loses none.
fn passing<F: Fn(&Aggregate) -> bool>(aggregates: &[Aggregate], passes: F) -> u32
    requires few { length aggregates.now ≤ 32 }
    requires callable { F.IsAlwaysCallable passes }
    ensures below { result < 2 ^ length aggregates.now }
    ensures has { (n : ℕ) → n < length aggregates.now → FnReturnsAt F.Fn passes (slice_index_or aggregates.now n zero_aggregate) (has result n) }
{
    those(aggregates.len() as u8, |number| {
        passes(&aggregates[usize::from(number)])
    }) as u32
}

impl RuleTable {
    // The rules and the aggregates of the record. Its width is taken as 1 if it is less, and as 64 if it is more. No `From`: the
    // rest of the record is left out.
    pub fn of(table: &Table) -> RuleTable
        ensures is { result ≡ rule_table table.now }
        ensures says { AllSay (rules_of table.now) (clauses_of result) }
        ensures normal { NormalSheet table.now → NormalRules result }
    {
        RuleTable {
            width: table.width,
            clauses: clauses_from(&table.rules),
            aggregates: table.aggregates,
        }
    }

    // How many atoms there are.
    pub fn atom_count(&self) -> u8
        ensures { result ≡ width_of self.now }
    {
        width_read(self.width)
    }

    // The bounds without the atoms at or above the width.
    pub(super) fn below(&self, bounds: Bounds) -> Bounds
        ensures { result ≡ below_width self.now bounds }
    {
        let width = self.atom_count();
        Bounds {
            lower: clipped(bounds.lower, width),
            upper: clipped(bounds.upper, width),
        }
    }

    // The heads below the width of the rules that fire.
    fn derived(&self, grounds: Grounds) -> Interpretation
        ensures { result ≡ derived self.now grounds }
    {
        let heads = self
            .clauses
            .as_slice()
            .iter()
            .fold(0, |heads, clause| heads | clause.share(grounds));
        clipped(heads, self.atom_count())
    }

    // The heads below the width of the rules that fire on these atoms and the aggregates that pass.
    pub(super) fn heads<F: Fn(&Aggregate) -> bool>(
        &self,
        held: Interpretation,
        possible: Interpretation,
        passes: F,
    ) -> Interpretation
        requires { F.IsAlwaysCallable passes }
        ensures { (judge : Aggregate → Bool) → Answers (FnReturnsAt F.Fn passes) judge → result ≡ derived self.now (record { held = held; possible = possible; holding = passing judge (aggregates_of self.now) }) }
    {
        let holding = passing(self.aggregates.as_slice(), passes);
        self.derived(Grounds {
            held,
            possible,
            holding,
        })
    }

    // The table with the reduct of its rules by z.
    pub(super) fn reduct(&self, z: Interpretation) -> RuleTable
        ensures { result ≡ reduced z self.now }
    {
        RuleTable {
            clauses: reduct_rows(&self.clauses, z),
            ..*self
        }
    }
}
