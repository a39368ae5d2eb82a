//! A run of the objective from the present basis.

ghost use Rattle.std.specs.Prelude.{◌≡◌, None, IfOk, IfErr};
ghost use Rattle.exact_values.specs.Rational.{◌≤ℚ◌};
ghost use Rattle.lp_definitions.specs.LinearProgram.{IsRow, HasNoLimits};
ghost use Rattle.basis_values.specs.Calls.{IsAtBasis};
ghost use Rattle.listing_tables.specs.Sheets.{IsSheet};
ghost use Rattle.para_objective.specs.Faces.{family};
ghost use Rattle.para_objective.specs.Runs.{ObjectiveFollows, IsTrueObjective};
ghost use Rattle.verb_answers.specs.RunReports.{IsOpening, IsOpeningChecked, IsPrintable};
ghost use Rattle.verb_answers.specs.Objective.{IsObjectiveAnswered, ObjectiveRunStops};

use crate::check::refusal_of;
use crate::report::RunReport;
use bounded_primal::PrimalStop;
use frac128::Refused;
use listing_tables::Sheet;
use lp_model::{Basis, Change, Lp, NoMemory, ParaReport, Rates};
use para_objective::{ParaObj, para_obj};
use std::alloc::Global;

/// The first operation that the check of the opening path is refused, if it isn't optimal and one is. The check is made in the linear
/// program at the first value.
fn opening_refusal(
    alloc: Global,
    lp: &Lp,
    run: &ParaObj,
    report: &ParaReport,
) -> Result<Option<Refused>, NoMemory>
    requires row { IsRow lp.now.matrix run.now.row }
    requires free { HasNoLimits lp.now run.now.row }
    requires truth { IsTrueObjective lp.now run.now report.now }
    ensures checked { IfOk result
        (IsOpeningChecked (family lp.now run.now run.now.from) report.now) }
    ensures opening { IfErr result (λ _. IsOpening report.now) }
{
    match report {
        ParaReport::Opening(outcome) => {
            let first = Change {
                row: run.row,
                theta: run.from,
            };
            let program = lp.with_change(alloc, first)?;
            Ok(refusal_of(&program, outcome))
        }
        ParaReport::Run(_) => Ok(None),
    }
}

/// Makes the run of the objective from the present basis, and checks the outcome of its opening path where that isn't optimal. The basis
/// and the rates are those that the run has reached, after a stop too.
pub fn objective_run_of<R: Rates>(
    alloc: Global,
    sheet: Sheet<'_>,
    basis: &mut Basis,
    rates: &mut R,
    run: &ParaObj,
) -> Result<RunReport, PrimalStop>
    requires sheet { IsSheet sheet }
    requires no_change { sheet.lp.now.change ≡ None }
    requires rates { IsAtBasis (R.state rates.old) sheet.lp.now basis.old }
    requires row { IsRow sheet.lp.now.matrix run.now.row }
    requires free { HasNoLimits sheet.lp.now run.now.row }
    requires forward { run.now.from ≤ℚ run.now.to }
    ensures answered { IfOk result (IsObjectiveAnswered sheet.entry run.now basis.old basis.new
        (R.state rates.old).waypoints (R.state rates.new).waypoints) }
    ensures truth { IfOk result
        (λ answer. IsTrueObjective sheet.entry.lp.now run.now answer.report) }
    ensures printable { IfOk result (λ answer. IsPrintable sheet.entry answer.report) }
    ensures stops { IfErr result (ObjectiveRunStops sheet.entry run.now basis.old basis.new
        (R.state rates.old).waypoints (R.state rates.new).waypoints) }
    ensures rates { IsAtBasis (R.state rates.new) sheet.entry.lp.now basis.new }
    ensures waypoints { ObjectiveFollows sheet.entry.lp.now run.now basis.old basis.new
        (R.state rates.old) (R.state rates.new) }
{
    let report = para_obj(alloc, sheet.lp, basis, rates, run)?;
    let refused = opening_refusal(alloc, sheet.lp, run, &report)?;
    Ok(RunReport { report, refused })
}
