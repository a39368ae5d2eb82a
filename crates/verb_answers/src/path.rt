//! The path from the present basis, by the simplex method or by the dual simplex method.

ghost use Rattle.std.specs.Prelude.{◌≡◌, None, IsSome, IfOk, IfErr, IsErrOf};
ghost use Rattle.basis_values.specs.Calls.{IsAtBasis};
ghost use Rattle.bounded_primal.specs.Calls.{CallEnds, WaypointsFollow};
ghost use Rattle.bounded_primal.specs.Outcomes.{IsTrueOutcome};
ghost use Rattle.bounded_primal.specs.Stops.{PrimalStops};
ghost use Rattle.listing_tables.specs.Sheets.{IsSheet};
ghost use Rattle.report_text.specs.Verdicts.{IsOutcome};
ghost use Rattle.verb_answers.specs.Reports.{most_steps, IsReached, PathStops, IsDualReached, DualPathStops};
ghost use Rattle.bounded_dual.specs.Stops.{DualWaypointsFollow};

use crate::check::refusal_of;
use bounded_dual::{DualStop, dual};
use bounded_primal::{PrimalStop, primal, primal_free};
use frac128::Refused;
use listing_tables::Sheet;
use lp_model::{Basis, Lp, Outcome, Rates};
use std::alloc::Global;

/// Where a path has ended, and the first operation that the check of its outcome was refused, if one was.
#[derive(Debug, Drop)]
pub struct PathReport {
    pub outcome: Outcome,
    pub refused: Option<Refused>,
}

/// Follows the path from the basis to its end, for at most `limit` steps if there is a limit.
fn outcome_from<R: Rates>(
    alloc: Global,
    lp: &Lp,
    basis: &mut Basis,
    rates: &mut R,
    limit: Option<u32>,
) -> Result<Outcome, PrimalStop>
    requires { IsAtBasis (R.state rates.old) lp.now basis.old }
    ensures ends { IfOk result (CallEnds lp.now basis.old basis.new (most_steps lp.now limit)) }
    ensures stops { IfErr result (PrimalStops lp.now basis.old basis.new (most_steps lp.now limit)
        (R.state rates.old) (R.state rates.new)) }
    ensures limited { IsErrOf result PrimalStop.Limit → IsSome limit }
    ensures rates { IsAtBasis (R.state rates.new) lp.now basis.new }
    ensures waypoints { WaypointsFollow lp.now basis.old basis.new (R.state rates.old)
        (R.state rates.new) }
    ensures truth { IfOk result (IsTrueOutcome lp.now) }
{
    match limit {
        Some(limit) => primal(alloc, lp, basis, rates, limit),
        None => Ok(primal_free(alloc, lp, basis, rates)?),
    }
}

/// Follows the path from the basis to its end, for at most `limit` steps if there is a limit, and checks what it came to. The basis
/// and the rates are those that the path has reached, after a stop too.
pub fn path_from<R: Rates>(
    alloc: Global,
    sheet: Sheet<'_>,
    basis: &mut Basis,
    rates: &mut R,
    limit: Option<u32>,
) -> Result<PathReport, PrimalStop>
    requires sheet { IsSheet sheet }
    requires no_change { sheet.lp.now.change ≡ None }
    requires rates { IsAtBasis (R.state rates.old) sheet.lp.now basis.old }
    ensures outcome { IfOk result (λ report. IsOutcome sheet.entry report.outcome) }
    ensures reached { IfOk result (IsReached sheet.entry basis.old basis.new limit) }
    ensures stops { IfErr result (PathStops sheet.entry basis.old basis.new limit
        (R.state rates.old).waypoints (R.state rates.new).waypoints) }
    ensures rates { IsAtBasis (R.state rates.new) sheet.entry.lp.now basis.new }
    ensures waypoints { WaypointsFollow sheet.entry.lp.now basis.old basis.new (R.state rates.old)
        (R.state rates.new) }
{
    let outcome = outcome_from(alloc, sheet.lp, basis, rates, limit)?;
    let refused = refusal_of(sheet.lp, &outcome);
    Ok(PathReport { outcome, refused })
}

/// Follows the dual path from the basis to its end, for at most `limit` steps, and checks what it came to. A wrong price stops it before
/// any step. The basis and the rates are those that the path has reached, after a stop too.
pub fn dual_from<R: Rates>(
    alloc: Global,
    sheet: Sheet<'_>,
    basis: &mut Basis,
    rates: &mut R,
    limit: u32,
) -> Result<PathReport, DualStop>
    requires sheet { IsSheet sheet }
    requires no_change { sheet.lp.now.change ≡ None }
    requires rates { IsAtBasis (R.state rates.old) sheet.lp.now basis.old }
    ensures outcome { IfOk result (λ report. IsOutcome sheet.entry report.outcome) }
    ensures reached { IfOk result (IsDualReached sheet.entry basis.old basis.new limit) }
    ensures stops { IfErr result (DualPathStops sheet.entry basis.old basis.new limit
        (R.state rates.old).waypoints (R.state rates.new).waypoints) }
    ensures rates { IsAtBasis (R.state rates.new) sheet.entry.lp.now basis.new }
    ensures waypoints { DualWaypointsFollow sheet.entry.lp.now basis.old basis.new
        (R.state rates.old) (R.state rates.new) }
{
    let outcome = dual(alloc, sheet.lp, basis, rates, limit)?;
    let refused = refusal_of(sheet.lp, &outcome);
    Ok(PathReport { outcome, refused })
}
