// What RANGE shows of an optimal basis: its point, and the intervals in which it stays optimal.
ghost use Rattle.std.specs.Prelude.{◌≡◌, None, IfOk, IfErr};
ghost use Rattle.lp_definitions.specs.Basis.{IsOptimalBasis};
ghost use Rattle.lp_model.specs.RatesCalls.{IfOverflow};
ghost use Rattle.basis_values.specs.Calls.{IsAtBasis, StaysAt};
ghost use Rattle.answer_definitions.specs.Sections.{IsRanged};
ghost use Rattle.listing_tables.specs.Lines.{range_lines};
ghost use Rattle.verb_answers.specs.Answers.{sheet_view, AreRanged};
ghost use Rattle.verb_answers.specs.Stops.{RangesRefused};

use basis_values::point_at;
use listing_tables::Sheet;
use lp_model::{Basis, Point, RangeReport, Rates, Stop};
use ranging::range;
use std::alloc::Global;

/// What RANGE shows of a basis: each variable's value, and the intervals in which the basis stays optimal.
#[derive(Debug, Drop)]
pub struct Ranged {
    pub point: Point,
    pub report: RangeReport,
}

/// What RANGE shows of the basis.
pub fn ranges_of<R: Rates>(
    alloc: Global,
    sheet: Sheet<'_>,
    basis: &Basis,
    rates: &mut R,
) -> Result<Ranged, Stop>
    requires no_change { sheet.lp.now.change ≡ None }
    requires optimal { IsOptimalBasis sheet.lp.now basis.now }
    requires rates { IsAtBasis (R.state rates.old) sheet.lp.now basis.now }
    ensures listed { IfOk result (AreRanged sheet.entry.lp.now basis.now) }
    ensures ranged { IfOk result (λ ranged. IsRanged (sheet_view sheet.entry) basis.now
        (range_lines sheet.entry.lp.now basis.now ranged.point ranged.report
        sheet.entry.problem.now)) }
    ensures overflow { IfErr result (λ stop. IfOverflow stop (RangesRefused sheet.entry.lp.now
        (R.state rates.old).waypoints basis.now (R.state rates.new).waypoints)) }
    ensures rates { StaysAt (R.state rates.old) (R.state rates.new) sheet.entry.lp.now basis.now }
{
    let lp = sheet.lp;
    let point = point_at(alloc, lp, basis, rates)?;
    let report = range(alloc, lp, basis, rates)?;
    Ok(Ranged { point, report })
}
