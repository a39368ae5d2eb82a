//! The report of all intervals.

ghost use Rattle.std.specs.Prelude.{◌≡◌, None, IfOk, IfErr};
ghost use Rattle.lp_definitions.specs.Basis.{IsOptimalBasis};
ghost use Rattle.simplex_definitions.specs.Ranges.{IsRangeReport};
ghost use Rattle.basis_values.specs.Calls.{IsAtBasis, StaysAt};
ghost use Rattle.basis_values.specs.Stops.{RangeOverflow};
ghost use Rattle.lp_model.specs.RatesCalls.{IfOverflow};
ghost use Rattle.ranging.specs.LimitEnds.{no_ends};
ghost use Rattle.ranging.specs.Optima.{IsOptimum, AreEndsOfRows, AreEndsOfLimits};
ghost use Rattle.ranging.specs.Lists.{RefusedAnywhere, report_of};
ghost use Rattle.ranging.specs.Complete.{HasNoEvidence, IsReportOrMemory};

use crate::lists::{cost_list, limit_list, row_list};
use crate::optimum::Optimum;
use crate::pass::pass;
use affine_laws::Ends;
use basis_values::{point_at, prices_at};
use frac128::Frac;
use lp_model::{Basis, Intervals, Lp, NoMemory, RangeReport, Rates, Stop};
use std::alloc::Global;

/// The report, from the ends of the rows and of the limits.
fn report(
    alloc: Global,
    at: &Optimum<'_>,
    found: &[Ends],
    ends: &[Ends],
) -> Result<RangeReport, Stop>
    requires optimum { IsOptimum at.now }
    requires found { AreEndsOfRows at.now found.now }
    requires ends { AreEndsOfLimits at.now ends.now }
    ensures report { IfOk result
        (λ report. IsRangeReport at.now.lp.now at.now.basis.now (report_of report)) }
    ensures overflow { IfErr result
        (λ stop. IfOverflow stop (RefusedAnywhere at.now.lp.now at.now.basis.now)) }
{
    let limits = limit_list(alloc, at, ends)?;
    let costs = cost_list(alloc, at, found)?;
    let rows = row_list(alloc, at, found)?;
    Ok(RangeReport {
        limits: Intervals::new(limits),
        costs: Intervals::new(costs),
        rows: Intervals::new(rows),
    })
}

/// No ends.
fn without_ends() -> Ends
    ensures { result ≡ no_ends }
{
    Ends {
        low: None,
        high: None,
    }
}

/// The report at an optimal basis whose point and prices are known.
fn range_at<R: Rates>(alloc: Global, at: &Optimum<'_>, rates: &mut R) -> Result<RangeReport, Stop>
    requires rates { IsAtBasis (R.state rates.old) at.now.lp.now at.now.basis.now }
    requires optimum { IsOptimum at.now }
    ensures report { IfOk result
        (λ report. IsRangeReport at.now.lp.now at.now.basis.now (report_of report)) }
    ensures rates { StaysAt (R.state rates.old) (R.state rates.new) at.now.lp.now at.now.basis.now }
    ensures overflow { RangeOverflow result at.now.lp.now at.now.basis.now (R.state rates.old)
        (R.state rates.new) }
{
    let size = at.lp.number_of_variables() as usize;
    let mut row = vec![in alloc; Frac::whole(0); size].map_err(|_| NoMemory)?;
    let mut found = vec![in alloc; without_ends(); size].map_err(|_| NoMemory)?;
    let mut ends = vec![in alloc; without_ends(); size].map_err(|_| NoMemory)?;
    pass(at, rates, &mut row, &mut found, &mut ends)?;
    report(alloc, at, &found, &ends)
}

/// The intervals in which the basis stays optimal: of each limit at which a nonbasic stands, of each column's cost, and of the
/// multiple of each basic row but the objective that is added to the objective. The three lists are in ascending number, and a
/// value lies between the ends of its interval exactly where the basis is optimal in the changed program. The row of each basic
/// is read once. An overflow comes only with evidence of it at this basis; where none holds, the answer is the report, or there is
/// no memory.
pub fn range<R: Rates>(
    alloc: Global,
    lp: &Lp,
    basis: &Basis,
    rates: &mut R,
) -> Result<RangeReport, Stop>
    requires rates { IsAtBasis (R.state rates.old) lp.now basis.now }
    requires no_change { lp.now.change ≡ None }
    requires optimal { IsOptimalBasis lp.now basis.now }
    ensures report { IfOk result (λ report. IsRangeReport lp.now basis.now (report_of report)) }
    ensures rates { StaysAt (R.state rates.old) (R.state rates.new) lp.now basis.now }
    ensures overflow { RangeOverflow result lp.now basis.now (R.state rates.old)
        (R.state rates.new) }
    ensures complete { HasNoEvidence lp.now basis.now (R.state rates.old).waypoints →
        IsReportOrMemory lp.now basis.now result }
{
    let _size = lp.number_of_variables();
    let point = point_at(alloc, lp, basis, rates)?;
    let prices = prices_at(alloc, lp, basis, rates)?;
    let at = Optimum {
        lp,
        basis,
        point: point.values(),
        prices: prices.values(),
    };
    range_at(alloc, &at, rates)
}
