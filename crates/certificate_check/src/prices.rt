//! The parts of a check on prices: the reduced costs of the columns, and the limits at which the prices stand.

ghost use Rattle.std.specs.Prelude.{◌≡◌, length};
ghost use Rattle.lp_definitions.specs.LinearProgram.{IsColumn, IsVariable, size, value_at};
ghost use Rattle.check_definitions.specs.Steps.{verdict_of};
ghost use Rattle.check_definitions.specs.Checks.{reduced_cost, reduced_costs, standing_price, standing_prices};
ghost use Rattle.certificate_check.specs.Results.{verdict_from};

use crate::comparisons::{counted_for, holds_by_sign, is_equal, stands_at};
use crate::stops::{Stopped, compare};
use crate::sums::{column_sum, combined_cost, subtract, value_of};
use frac128::Frac;
use lp_model::Lp;

/// The cost of the column, less the rows' prices times its numbers, is the price of the column.
fn is_reduced_cost(lp: &Lp, prices: &[Frac], column: u32) -> Result<(), Stopped>
    requires column { IsColumn lp.now.matrix column }
    requires places { length prices.now ≡ size lp.now.matrix }
    ensures { verdict_from result ≡ verdict_of (reduced_cost lp.now (value_at prices.now) column) }
{
    let variable = lp.rows + column;
    let entries = lp.column(column);
    let cost = combined_cost(lp, entries)?;
    let sum = column_sum(Frac::whole(0), entries, prices)?;
    let reduced = subtract(cost, sum)?;
    compare(is_equal(reduced, value_of(prices, variable)), 3, variable)
}

/// The prices of the columns are their reduced costs.
pub fn are_reduced_costs(lp: &Lp, prices: &[Frac]) -> Result<(), Stopped>
    requires { length prices.now ≡ size lp.now.matrix }
    ensures { verdict_from result ≡ verdict_of (reduced_costs lp.now (value_at prices.now)) }
{
    for i in 0..lp.cols {
        is_reduced_cost(lp, prices, i + 1)?;
    }
    Ok(())
}

/// The price of the variable stands only at the limit that its sign asks for.
fn price_stands(lp: &Lp, point: &[Frac], prices: &[Frac], k: u32) -> Result<(), Stopped>
    requires variable { IsVariable lp.now.matrix k }
    requires point_places { length point.now ≡ size lp.now.matrix }
    requires price_places { length prices.now ≡ size lp.now.matrix }
    ensures { verdict_from result ≡ verdict_of (standing_price lp.now (value_at point.now)
        (value_at prices.now) k) }
{
    let price = counted_for(lp.sense, value_of(prices, k));
    let value = value_of(point, k);
    let at_upper = stands_at(lp.upper_limit(k), value);
    let at_lower = stands_at(lp.lower_limit(k), value);
    compare(holds_by_sign(price, at_upper, at_lower), 4, k)
}

/// Each price that is not 0 stands at the limit that its sign asks for.
pub fn prices_stand(lp: &Lp, point: &[Frac], prices: &[Frac]) -> Result<(), Stopped>
    requires point_places { length point.now ≡ size lp.now.matrix }
    requires price_places { length prices.now ≡ size lp.now.matrix }
    ensures { verdict_from result ≡ verdict_of (standing_prices lp.now (value_at point.now)
        (value_at prices.now)) }
{
    for i in 0..lp.number_of_variables() {
        price_stands(lp, point, prices, i + 1)?;
    }
    Ok(())
}
