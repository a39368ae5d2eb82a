// The test of what SOLUTION prints.
ghost use Rattle.std.specs.Prelude.{◌≡◌, ◌↔◌, ℕ, List, IsTrue, IfOk, length};
ghost use Rattle.exact_values.specs.Rational.{ℚ};
ghost use Rattle.lp_definitions.specs.LinearProgram.{size, value_at};
ghost use Rattle.problem_definitions.specs.Problem.{Problem};
ghost use Rattle.check_definitions.specs.Steps.{AllHold};
ghost use Rattle.check_definitions.specs.Checks.{equations, reduced_costs};
ghost use Rattle.walk_definitions.specs.Checkers.{checker_of_any_length};
ghost use Rattle.walk_definitions.specs.Tests.{best_test};
ghost use Rattle.listing_claims.specs.Solutions.{Counted, printed_test};
ghost use Rattle.long_programs.specs.Programs.{own_theta};
ghost use Rattle.long_programs.specs.Places.{IsSpread};
ghost use Rattle.long_solutions.specs.Answers.{Answers};

use listing_claims::Printed;
use listing_definitions::Mark;
use listing_words::{Allowance, Number};
use long_points::{
    PricedAt, both, equations_hold, limits_hold, prices_stand, reduced_costs_hold, slacks_hold,
    take_spread,
};
use long_programs::{Spread, SpreadAt, as_it_is, spread_own};
use long_vectors::column_of;
use lp_model::Lp;
use std::alloc::{AllocError, Global};

// Whether more holds of a point and of prices under OPTIMAL, where it is known whether the equations and the reduced costs hold.
fn best_holds(
    alloc: Global,
    lp: &Lp,
    mark: Mark,
    point: &Spread,
    prices: &Spread,
    keeps: bool,
    priced: bool,
) -> Result<bool, AllocError>
    requires places { length point.now.column.tops.items ≡ size lp.now.matrix }
    requires price_places { length prices.now.column.tops.items ≡ size lp.now.matrix }
    ensures { IfOk result
        (λ holds. (problem : Problem ℕ) → (values costs : List ℚ) →
        IsSpread values (own_theta lp.now) point.now →
        IsSpread costs (own_theta lp.now) prices.now →
        IsTrue keeps ↔ AllHold (equations lp.now 1 (value_at values)) →
        IsTrue priced ↔ AllHold (reduced_costs lp.now (value_at costs)) →
        Answers holds
        (best_test checker_of_any_length (record { problem = problem; lp = lp.now }) mark
        (value_at values) (value_at costs))) }
{
    match mark {
        Mark::Optimal => {
            let at = SpreadAt {
                program: as_it_is(lp),
                spread: point,
            };
            let within = limits_hold(alloc, &at)?;
            let at_prices = PricedAt {
                point: at,
                prices: &prices.column,
            };
            let stand = prices_stand(alloc, &at_prices)?;
            let feasible = both(keeps, within);
            let are_prices = both(priced, stand);
            Ok(both(feasible, are_prices))
        }
        Mark::Infeasible | Mark::Unbounded => Ok(true),
    }
}

// Whether activities, prices and slacks pass.
fn values_hold(
    alloc: Global,
    lp: &Lp,
    mark: Mark,
    point: &Spread,
    prices: &Spread,
    slacks: &[Number<'_>],
) -> Result<bool, AllocError>
    requires places { length point.now.column.tops.items ≡ size lp.now.matrix }
    requires price_places { length prices.now.column.tops.items ≡ size lp.now.matrix }
    requires slack_places { length slacks.now ≡ lp.now.matrix.rows }
    ensures { IfOk result
        (λ holds. (problem : Problem ℕ) → (values costs : List ℚ) →
        IsSpread values (own_theta lp.now) point.now →
        IsSpread costs (own_theta lp.now) prices.now →
        Answers holds
        (printed_test checker_of_any_length (record { problem = problem; lp = lp.now }) mark
        (value_at values) (value_at costs) (value_at slacks.now))) }
{
    let at = SpreadAt {
        program: as_it_is(lp),
        spread: prices,
    };
    let keeps = equations_hold(alloc, lp, &point.column)?;
    let priced = reduced_costs_hold(alloc, &at)?;
    let slack = slacks_hold(alloc, lp, &point.column, slacks)?;
    let best = best_holds(alloc, lp, mark, point, prices, keeps, priced)?;
    let last = both(slack, best);
    let rest = both(priced, last);
    Ok(both(keeps, rest))
}

/// Whether what SOLUTION prints under a mark passes.
pub fn printed_holds(
    alloc: Global,
    lp: &Lp,
    mark: Mark,
    printed: &Printed<'_>,
    allowance: &mut Allowance,
) -> Result<bool, AllocError>
    requires { Counted lp.now printed.now }
    ensures { IfOk result (λ holds. (problem : Problem ℕ) →
        Answers holds
        (printed_test checker_of_any_length (record { problem = problem; lp = lp.now }) mark
        (value_at printed.now.point.items)
        (value_at printed.now.prices.items) (value_at printed.now.slacks.items))) }
{
    let point_column = column_of(alloc, &printed.point, allowance)?;
    let price_column = column_of(alloc, &printed.prices, allowance)?;
    let point = spread_own(alloc, lp, point_column, allowance)?;
    let prices = spread_own(alloc, lp, price_column, allowance)?;
    take_spread(allowance, lp, &point)?;
    take_spread(allowance, lp, &prices)?;
    let holds = values_hold(alloc, lp, mark, &point, &prices, &printed.slacks)?;
    Ok(holds)
}
