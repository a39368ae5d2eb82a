//! One pass over the basics: the row of each is read once.

ghost use Rattle.std.specs.Prelude.{◌≡◌, ◌-◌, length, IfOk, IfErr, OnOk};
ghost use Rattle.lp_definitions.specs.LinearProgram.{size, value_at, IsVariable};
ghost use Rattle.lp_definitions.specs.Basis.{basics_of, IsBasic};
ghost use Rattle.basis_values.specs.Calls.{IsAtBasis, StaysAt};
ghost use Rattle.basis_values.specs.Stops.{RangeOverflow};
ghost use Rattle.ranging.specs.Optima.{IsOptimum};
ghost use Rattle.ranging.specs.Tables.{AreEndsOfRow, AllMet, AllFound};

use crate::choices::stands_basic;
use crate::limit_ends::meet_limits;
use crate::optimum::Optimum;
use crate::row_ends::row_ends;
use affine_laws::Ends;
use frac128::Frac;
use lp_model::{Rates, Stop};

/// The ends of the row of the basic `i`, by whose limits the ends of the limits of the nonbasics are tightened. `row` is
/// workspace for its rates.
fn visit<R: Rates>(
    at: &Optimum<'_>,
    rates: &mut R,
    i: u32,
    row: &mut [Frac],
    ends: &mut [Ends],
) -> Result<Ends, Stop>
    requires rates { IsAtBasis (R.state rates.old) at.now.lp.now at.now.basis.now }
    requires optimum { IsOptimum at.now }
    requires row_places { length row.old ≡ size at.now.lp.now.matrix }
    requires end_places { length ends.old ≡ size at.now.lp.now.matrix }
    requires basic { IsBasic at.now.lp.now.matrix (basics_of at.now.basis.now) i }
    requires met { AllMet at.now.lp.now at.now.basis.now
        (value_at at.now.point.now) (i - 1) ends.old }
    ensures found { IfOk result (AreEndsOfRow at.now.lp.now at.now.basis.now i) }
    ensures met { OnOk result
        (AllMet at.now.lp.now at.now.basis.now (value_at at.now.point.now) i ends.new) }
    ensures rates { StaysAt (R.state rates.old) (R.state rates.new) at.now.lp.now at.now.basis.now }
    ensures overflow { RangeOverflow result at.now.lp.now at.now.basis.now (R.state rates.old)
        (R.state rates.new) }
{
    rates.row(i, row)?;
    match meet_limits(at.lp, at.basis, at.point, i, row, ends) {
        Ok(()) => match row_ends(at.lp, at.basis, at.prices, row, i) {
            Ok(found) => Ok(found),
            Err(evidence) => Err(Stop::Overflow(evidence)),
        },
        Err(evidence) => Err(Stop::Overflow(evidence)),
    }
}

/// Visits `i`, if it is basic and not the objective, and keeps the ends of its row.
fn visit_basic<R: Rates>(
    at: &Optimum<'_>,
    rates: &mut R,
    i: u32,
    row: &mut [Frac],
    found: &mut [Ends],
    ends: &mut [Ends],
) -> Result<(), Stop>
    requires rates { IsAtBasis (R.state rates.old) at.now.lp.now at.now.basis.now }
    requires optimum { IsOptimum at.now }
    requires row_places { length row.old ≡ size at.now.lp.now.matrix }
    requires found_places { length found.old ≡ size at.now.lp.now.matrix }
    requires end_places { length ends.old ≡ size at.now.lp.now.matrix }
    requires variable { IsVariable at.now.lp.now.matrix i }
    requires met { AllMet at.now.lp.now at.now.basis.now
        (value_at at.now.point.now) (i - 1) ends.old }
    requires found { AllFound at.now.lp.now at.now.basis.now (i - 1) found.old }
    ensures met { OnOk result
        (AllMet at.now.lp.now at.now.basis.now (value_at at.now.point.now) i ends.new) }
    ensures found { OnOk result (AllFound at.now.lp.now at.now.basis.now i found.new) }
    ensures rates { StaysAt (R.state rates.old) (R.state rates.new) at.now.lp.now at.now.basis.now }
    ensures overflow { RangeOverflow result at.now.lp.now at.now.basis.now (R.state rates.old)
        (R.state rates.new) }
{
    if !stands_basic(at.basis, i) {
        return Ok(());
    }
    let lp = at.lp;
    if i == lp.objective {
        return Ok(());
    }
    let own = visit(at, rates, i, row, ends)?;
    found[i as usize - 1] = own;
    Ok(())
}

/// Finds the ends of the rows of the basics, and those of the limits of the nonbasics. `row` is workspace for the rates of one basic.
pub fn pass<R: Rates>(
    at: &Optimum<'_>,
    rates: &mut R,
    row: &mut [Frac],
    found: &mut [Ends],
    ends: &mut [Ends],
) -> Result<(), Stop>
    requires rates { IsAtBasis (R.state rates.old) at.now.lp.now at.now.basis.now }
    requires optimum { IsOptimum at.now }
    requires row_places { length row.old ≡ size at.now.lp.now.matrix }
    requires found_places { length found.old ≡ size at.now.lp.now.matrix }
    requires end_places { length ends.old ≡ size at.now.lp.now.matrix }
    requires begins { AllMet at.now.lp.now at.now.basis.now (value_at at.now.point.now) 0 ends.old }
    ensures met { OnOk result (AllMet at.now.lp.now at.now.basis.now (value_at at.now.point.now)
        (size at.now.lp.now.matrix) ends.new) }
    ensures found { OnOk result
        (AllFound at.now.lp.now at.now.basis.now (size at.now.lp.now.matrix) found.new) }
    ensures rates { StaysAt (R.state rates.old) (R.state rates.new) at.now.lp.now at.now.basis.now }
    ensures overflow { RangeOverflow result at.now.lp.now at.now.basis.now (R.state rates.old)
        (R.state rates.new) }
{
    for k in 0..at.lp.number_of_variables() {
        visit_basic(at, rates, k + 1, row, found, ends)?;
    }
    Ok(())
}
