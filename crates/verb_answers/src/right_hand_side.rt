//! A run of the right-hand side from the present basis.

ghost use Rattle.std.specs.Prelude.{◌≡◌, None, [], length, IfOk, IfErr};
ghost use Rattle.exact_values.specs.Rational.{◌≤ℚ◌};
ghost use Rattle.lp_model.specs.RatesCalls.{IfOverflow};
ghost use Rattle.simplex_definitions.specs.Statements.{Pararhs};
ghost use Rattle.simplex_definitions.specs.Evidence.{ShiftHolds};
ghost use Rattle.basis_values.specs.Calls.{IsAtBasis};
ghost use Rattle.listing_tables.specs.Sheets.{IsSheet};
ghost use Rattle.para_rhs.specs.Faces.{family};
ghost use Rattle.para_rhs.specs.Runs.{RhsFollows, IsTrueRhs};
ghost use Rattle.verb_answers.specs.RunReports.{IsOpening, IsOpeningChecked, IsPrintable};
ghost use Rattle.verb_answers.specs.RightHandSide.{IsRhsAnswered, RhsRunStops};

use crate::check::refusal_of;
use crate::report::RunReport;
use bounded_primal::PrimalStop;
use frac128::Refused;
use listing_tables::Sheet;
use lp_model::{Basis, Lp, ParaReport, Rates, Stop};
use para_rhs::{ParaRhs, para_rhs, program_at};
use std::alloc::Global;

/// The linear program at the first value.
fn first_program(alloc: Global, lp: &Lp, run: &ParaRhs) -> Result<Lp, Stop>
    requires shifts { length run.now.shift.items ≡ lp.now.rows }
    ensures program { IfOk result (λ first. first ≡ family lp.now run.now run.now.from) }
    ensures overflow { IfErr result (λ stop. IfOverflow stop
        (ShiftHolds (Pararhs lp.now run.now.shift.items run.now.from) [])) }
{
    program_at(alloc, lp, &run.shift, run.from)
}

/// The first operation that the check of the opening path is refused, if it isn't optimal and one is. The check is made in the linear
/// program at the first value.
fn opening_refusal(
    alloc: Global,
    lp: &Lp,
    run: &ParaRhs,
    report: &ParaReport,
) -> Result<Option<Refused>, Stop>
    requires shifts { length run.now.shift.items ≡ lp.now.rows }
    requires truth { IsTrueRhs lp.now run.now report.now }
    ensures checked { IfOk result
        (IsOpeningChecked (family lp.now run.now run.now.from) report.now) }
    ensures opening { IfErr result (λ _. IsOpening report.now) }
    ensures overflow { IfErr result (λ stop. IfOverflow stop
        (ShiftHolds (Pararhs lp.now run.now.shift.items run.now.from) [])) }
{
    match report {
        ParaReport::Opening(outcome) => {
            let program = first_program(alloc, lp, run)?;
            Ok(refusal_of(&program, outcome))
        }
        ParaReport::Run(_) => Ok(None),
    }
}

/// Makes the run of the right-hand side from the present basis, and checks the outcome of its opening path where that isn't optimal. The
/// basis and the rates are those that the run has reached, after a stop too.
pub fn rhs_run_of<R: Rates>(
    alloc: Global,
    sheet: Sheet<'_>,
    basis: &mut Basis,
    rates: &mut R,
    run: &ParaRhs,
) -> Result<RunReport, PrimalStop>
    requires sheet { IsSheet sheet }
    requires no_change { sheet.lp.now.change ≡ None }
    requires rates { IsAtBasis (R.state rates.old) sheet.lp.now basis.old }
    requires shifts { length run.now.shift.items ≡ sheet.lp.now.rows }
    requires forward { run.now.from ≤ℚ run.now.to }
    ensures answered { IfOk result (IsRhsAnswered sheet.entry run.now basis.old basis.new
        (R.state rates.old).waypoints (R.state rates.new).waypoints) }
    ensures truth { IfOk result (λ answer. IsTrueRhs sheet.entry.lp.now run.now answer.report) }
    ensures printable { IfOk result (λ answer. IsPrintable sheet.entry answer.report) }
    ensures stops { IfErr result (RhsRunStops sheet.entry run.now basis.old basis.new
        (R.state rates.old).waypoints (R.state rates.new).waypoints) }
    ensures rates { IsAtBasis (R.state rates.new) sheet.entry.lp.now basis.new }
    ensures waypoints { RhsFollows sheet.entry.lp.now run.now basis.old basis.new
        (R.state rates.old) (R.state rates.new) }
{
    let report = para_rhs(alloc, sheet.lp, basis, rates, run)?;
    let refused = opening_refusal(alloc, sheet.lp, run, &report)?;
    Ok(RunReport { report, refused })
}
