// The models of rules without aggregates.
ghost use Rattle.std.specs.Prelude.{◌≡◌, ℕ, Decides, MatchResult};
ghost use Rattle.atoms.specs.declared.bounds.Bounds.{Bounds as Pair};
ghost use Rattle.aggregates.specs.Readings.{plain_sure, plain_may};
ghost use Rattle.approx.specs.Stability.{Stable};
ghost use Rattle.approx.specs.Settling.{Settles};
ghost use Rattle.programs.specs.Clauses.{Same};
ghost use Rattle.programs.specs.Normal.{NormalRules};
ghost use Rattle.programs.specs.Programs.{table_meaning, program_meaning};
ghost use Rattle.programs.specs.Reducts.{reduced};
ghost use Rattle.programs.specs.Tables.{clauses_of, width_of};
ghost use Rattle.classics.specs.StableModels.{StableModel};
ghost use Rattle.classics.specs.Sheets.{SheetsNormal};
ghost use Rattle.classics.specs.WellFounded.{TheWellFounded};

use aggregates::{Plain, Reading};
use atoms::{Bounds, Interpretation};
use faults::BenchFault;
use programs::RuleProgram;
use solver::settle;

// Whether z is the lower of the settled bounds of the reduct by z. Without aggregates that lower is the least model of
// the reduct, so that this decides whether z is a stable model (Gelfond and Lifschitz 1988); and the stable models are the
// stable interpretations.
pub fn is_stable_model<R: Reading>(program: &RuleProgram<R>, z: Interpretation) -> bool
    ensures settled { (b : Pair) × (Settles (table_meaning plain_sure plain_may (reduced z program.now.table)) b × Decides result (b.lower ≡ z)) }
    ensures model { NormalRules program.now.table → Decides result (StableModel (clauses_of program.now.table) z) }
    ensures stable { NormalRules program.now.table → (x : ℕ) → Same (Stable (program_meaning R.Reading program.now) x) (StableModel (clauses_of program.now.table) x) }
{
    let reduct = RuleProgram::new(program.reduct(z), Plain);
    well_founded_model(&reduct).is_ok_and(|bounds| bounds.lower == z)
}

// The settled bounds, which are never crossed. Without aggregates they are the well-founded model (Van Gelder, Ross and
// Schlipf 1991).
pub fn well_founded_model<R: Reading>(program: &RuleProgram<R>) -> Result<Bounds, BenchFault>
    ensures settled { MatchResult result (λ b. Settles (program_meaning R.Reading program.now) b) (λ _. ⊥) }
    ensures model { MatchResult result (λ b. NormalRules program.now.table → TheWellFounded (width_of program.now.table) (clauses_of program.now.table) b) (λ _. ⊥) }
    ensures sheets { SheetsNormal }
{
    settle(program)
}
