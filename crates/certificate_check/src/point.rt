//! The parts of a check on a point: the equations of the rows, and the limits.

ghost use Rattle.std.specs.Prelude.{◌≡◌, ◌+◌, ◌≤◌, length};
ghost use Rattle.lp_definitions.specs.LinearProgram.{IsRow, IsVariable, size, value_at};
ghost use Rattle.check_definitions.specs.Steps.{verdict_of};
ghost use Rattle.check_definitions.specs.Checks.{equation, equations, within_limit, within_limits, feasible_point};
ghost use Rattle.certificate_check.specs.Listed.{AreListed};
ghost use Rattle.certificate_check.specs.Results.{verdict_from};

use crate::comparisons::{is_equal, is_within};
use crate::listed::list_columns;
use crate::stops::{Stopped, compare};
use crate::sums::{row_sum, value_of};
use frac128::Frac;
use lp_model::Lp;

/// The sum of the row is the value of the row.
fn equation_holds(
    lp: &Lp,
    part: u8,
    values: &[Frac],
    listed: &[u32],
    last: u32,
    row: u32,
) -> Result<(), Stopped>
    requires row { IsRow lp.now.matrix row }
    requires places { length values.now ≡ size lp.now.matrix }
    requires last { last ≤ lp.now.cols }
    requires listed { AreListed (λ j. value_at values.now (lp.now.rows + j)) 0 listed.now last }
    ensures { verdict_from result ≡ verdict_of (equation lp.now part (value_at values.now) row) }
{
    let sum = row_sum(lp, values, listed, last, row)?;
    compare(is_equal(sum, value_of(values, row)), part, row)
}

/// So many columns with a value other than 0 are looked for once for all rows.
const MOST_LISTED: usize = 1024;

/// The values keep the equations of the rows.
pub fn equations_hold(lp: &Lp, part: u8, values: &[Frac]) -> Result<(), Stopped>
    requires { length values.now ≡ size lp.now.matrix }
    ensures { verdict_from result ≡ verdict_of (equations lp.now part (value_at values.now)) }
{
    let mut columns = [0; MOST_LISTED];
    let (count, last) = list_columns(lp, values, &mut columns);
    let listed = &columns[..count];
    for i in 0..lp.rows {
        equation_holds(lp, part, values, listed, last, i + 1)?;
    }
    Ok(())
}

/// The value of the variable is within its limits.
fn limits_hold_at(lp: &Lp, point: &[Frac], k: u32) -> Result<(), Stopped>
    requires variable { IsVariable lp.now.matrix k }
    requires places { length point.now ≡ size lp.now.matrix }
    ensures { verdict_from result ≡ verdict_of (within_limit lp.now (value_at point.now) k) }
{
    let is_within = is_within(lp.lower_limit(k), lp.upper_limit(k), value_of(point, k));
    compare(is_within, 2, k)
}

/// The values of a point are within the limits of the variables.
fn limits_hold(lp: &Lp, point: &[Frac]) -> Result<(), Stopped>
    requires { length point.now ≡ size lp.now.matrix }
    ensures { verdict_from result ≡ verdict_of (within_limits lp.now (value_at point.now)) }
{
    for i in 0..lp.number_of_variables() {
        limits_hold_at(lp, point, i + 1)?;
    }
    Ok(())
}

/// The point keeps the equations and is within the limits.
pub fn point_is_feasible(lp: &Lp, point: &[Frac]) -> Result<(), Stopped>
    requires { length point.now ≡ size lp.now.matrix }
    ensures { verdict_from result ≡ verdict_of (feasible_point lp.now (value_at point.now)) }
{
    equations_hold(lp, 1, point)?;
    limits_hold(lp, point)
}
