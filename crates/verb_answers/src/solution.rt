// What SOLUTION shows of any present basis: its point, its prices, and the slack of each row.
ghost use Rattle.std.specs.Prelude.{◌≡◌, None, IfOk, IfErr};
ghost use Rattle.lp_model.specs.RatesCalls.{IfOverflow};
ghost use Rattle.basis_values.specs.Calls.{IsAtBasis, StaysAt};
ghost use Rattle.answer_definitions.specs.Sections.{IsSolutionOf};
ghost use Rattle.listing_tables.specs.Lines.{solution_lines};
ghost use Rattle.verb_answers.specs.Answers.{sheet_view, AreSolutionValues};
ghost use Rattle.verb_answers.specs.Stops.{SolutionRefused};

use crate::slack::slacks;
use basis_values::{point_at, prices_at};
use frac128::Frac;
use listing_tables::Sheet;
use lp_model::{Basis, Point, Prices, Rates, Stop};
use std::alloc::Global;

/// What SOLUTION shows of a basis: each variable's value and price, and the slack of each row.
#[derive(Debug, Drop)]
pub struct SolutionValues {
    pub point: Point,
    pub prices: Prices,
    pub slack: Vec<Frac>,
}

/// What SOLUTION shows of the basis.
pub fn solution_of<R: Rates>(
    alloc: Global,
    sheet: Sheet<'_>,
    basis: &Basis,
    rates: &mut R,
) -> Result<SolutionValues, Stop>
    requires no_change { sheet.lp.now.change ≡ None }
    requires rates { IsAtBasis (R.state rates.old) sheet.lp.now basis.now }
    ensures listed { IfOk result (AreSolutionValues sheet.entry.lp.now basis.now) }
    ensures viewed { IfOk result (λ viewed. IsSolutionOf (sheet_view sheet.entry) basis.now
        (solution_lines sheet.entry.problem.now sheet.entry.lp.now basis.now viewed.point
        viewed.prices viewed.slack.items)) }
    ensures overflow { IfErr result (λ stop. IfOverflow stop (SolutionRefused sheet.entry.lp.now
        (R.state rates.old).waypoints basis.now (R.state rates.new).waypoints)) }
    ensures rates { StaysAt (R.state rates.old) (R.state rates.new) sheet.entry.lp.now basis.now }
{
    let lp = sheet.lp;
    let point = point_at(alloc, lp, basis, rates)?;
    let prices = prices_at(alloc, lp, basis, rates)?;
    let slack = slacks(alloc, lp, point.values())?;
    Ok(SolutionValues {
        point,
        prices,
        slack,
    })
}
