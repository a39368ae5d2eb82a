// The limits of the variables, and the prices that stand at them.
ghost use Rattle.std.specs.Prelude.{◌≡◌, ◌↔◌, ◌&&◌, ◌≤◌, List, IsTrue, IfOk, length};
ghost use Rattle.exact_values.specs.Rational.{ℚ, whole, zero_ℚ, compare_ℚ};
ghost use Rattle.lp_definitions.specs.LinearProgram.{IsVariable, value_at, for_min};
ghost use Rattle.check_definitions.specs.Steps.{AllHold};
ghost use Rattle.check_definitions.specs.Checks.{by_sign, within_limits, feasible_point, standing_prices, optimal_steps};
ghost use Rattle.long_vectors.specs.Vectors.{IsOver};
ghost use Rattle.long_programs.specs.Programs.{program_of, IsChangeIn, IsPlain};
ghost use Rattle.long_points.specs.Tests.{limit_test, price_test, not_below_by, not_above_by, at_by, counted_by};
ghost use Rattle.long_points.specs.Told.{Passes, Tells, PassesPriced, TellsPriced};
ghost use Rattle.long_points.specs.Places.{HasPlaces};
ghost use Rattle.long_points.specs.Ends.{Points, IsEnd};

use crate::each::each_holds;
use crate::ends::End;
use crate::priced_at::PricedAt;
use crate::prices::reduced_costs_hold;
use crate::rows::equations_hold;
use integers::Integer;
use long_programs::{ProgramAt, SpreadAt, compare_to_limits, top_of};
use long_vectors::Column;
use lp_model::{Lp, Sense};
use naturals::Natural;
use std::alloc::{AllocError, Global};
use std::cmp::Ordering;

// Whether a number that compares so isn't below the limit.
fn is_not_below(order: Option<Ordering>) -> bool
    ensures { result ≡ not_below_by order }
{
    !matches!(order, Some(Ordering::Less))
}

// Whether a number that compares so isn't above the limit.
fn is_not_above(order: Option<Ordering>) -> bool
    ensures { result ≡ not_above_by order }
{
    !matches!(order, Some(Ordering::Greater))
}

/// Whether a number that compares so is at the limit.
pub fn is_at(order: Option<Ordering>) -> bool
    ensures { result ≡ at_by order }
{
    matches!(order, Some(Ordering::Equal))
}

/// Whether both hold.
pub fn both(first: bool, second: bool) -> bool
    ensures { result ≡ (first && second) }
{
    first && second
}

// Whether the value of variable `k` is within its limits at theta.
fn limit_holds(alloc: Global, point: &SpreadAt<'_>, k: u32) -> Result<bool, AllocError>
    requires { IsVariable point.now.program.lp.now.matrix k }
    ensures { IfOk result (Passes limit_test point.now k) }
{
    let orders = compare_to_limits(alloc, point, k)?;
    let above = is_not_below(orders.lower);
    let below = is_not_above(orders.upper);
    Ok(both(above, below))
}

/// Whether all values are within their limits at theta.
pub fn limits_hold(alloc: Global, point: &SpreadAt<'_>) -> Result<bool, AllocError>
    ensures { IfOk result (Tells within_limits point.now) }
{
    let variables = point.program.lp.number_of_variables();
    let holds = each_holds(variables, |k| limit_holds(alloc, point, k))?;
    Ok(holds)
}

/// Whether a point is feasible at theta.
pub fn feasible(alloc: Global, point: &SpreadAt<'_>) -> Result<bool, AllocError>
    ensures { IfOk result (Tells feasible_point point.now) }
{
    let keeps = equations_hold(alloc, point.program.lp, &point.spread.column)?;
    let within = limits_hold(alloc, point)?;
    Ok(both(keeps, within))
}

/// How a whole number compares with 0.
pub fn sign_of(alloc: Global, top: &Integer) -> Ordering
    ensures { result ≡ compare_ℚ (whole top.now) zero_ℚ }
{
    let zero = Integer::new(false, Natural::zero(alloc));
    top.compare(&zero)
}

/// How a number that compares so with 0 does as it counts where less is better.
pub fn counted(sense: Sense, order: Ordering) -> Ordering
    ensures { result ≡ counted_by sense order }
{
    match sense {
        Sense::Min => order,
        Sense::Max => order.reverse(),
    }
}

/// How the value of variable `k` compares with 0 as it counts where less is better.
pub fn counted_sign(alloc: Global, lp: &Lp, column: &Column, k: u32) -> Ordering
    requires first { 1 ≤ k }
    requires last { k ≤ length column.now.tops.items }
    ensures { (values : List ℚ) → IsOver values column.now →
        result ≡ compare_ℚ (for_min lp.now.sense (value_at values k)) zero_ℚ }
{
    counted(lp.sense, sign_of(alloc, top_of(column, k)))
}

/// What is asked of a negative number, and what of a positive one.
pub fn asked_by(sign: Ordering, negative: bool, positive: bool) -> bool
    ensures { result ≡ by_sign sign negative positive }
{
    match sign {
        Ordering::Less => negative,
        Ordering::Equal => true,
        Ordering::Greater => positive,
    }
}

// Whether the price of variable `k` stands at the limit at theta that its sign asks for.
fn price_stands(alloc: Global, priced: &PricedAt<'_>, k: u32) -> Result<bool, AllocError>
    requires { IsVariable priced.now.point.program.lp.now.matrix k }
    ensures { IfOk result (PassesPriced price_test priced.now k) }
{
    let point = priced.point;
    let sign = counted_sign(alloc, point.program.lp, priced.prices, k);
    let orders = compare_to_limits(alloc, &point, k)?;
    let at_upper = is_at(orders.upper);
    let at_lower = is_at(orders.lower);
    Ok(asked_by(sign, at_upper, at_lower))
}

/// Whether each price that is not 0 stands at the limit at theta that its sign asks for.
pub fn prices_stand(alloc: Global, priced: &PricedAt<'_>) -> Result<bool, AllocError>
    ensures { IfOk result (TellsPriced standing_prices priced.now) }
{
    let variables = priced.point.program.lp.number_of_variables();
    let holds = each_holds(variables, |k| price_stands(alloc, priced, k))?;
    Ok(holds)
}

/// Whether a point and prices are best at theta.
pub fn optimal(alloc: Global, program: &ProgramAt<'_>, end: &End) -> Result<bool, AllocError>
    requires change { IsChangeIn program.now.lp.now program.now.change }
    requires plain { IsPlain program.now.lp.now program.now.change }
    requires places { HasPlaces program.now.lp.now end.now }
    ensures { IfOk result (λ holds. (points : Points) → (theta : ℚ) → IsEnd points theta end.now →
        IsTrue holds ↔ AllHold
        (optimal_steps (program_of program.now.lp.now program.now.change theta)
        (value_at points.point) (value_at points.prices))) }
{
    let program = *program;
    let point = SpreadAt {
        program,
        spread: &end.point,
    };
    let prices = SpreadAt {
        program,
        spread: &end.prices,
    };
    let is_feasible = feasible(alloc, &point)?;
    let are_reduced = reduced_costs_hold(alloc, &prices)?;
    let priced = PricedAt {
        point,
        prices: &end.prices.column,
    };
    let stand = prices_stand(alloc, &priced)?;
    let are_prices = both(are_reduced, stand);
    Ok(both(is_feasible, are_prices))
}
