// How values compare with their limits at a value of the parameter.
ghost use Rattle.std.specs.Prelude.{◌≡◌, ◌≤◌, List, IfOk, option_map, length};
ghost use Rattle.exact_values.specs.Rational.{ℚ, ◌+ℚ◌, ◌*ℚ◌};
ghost use Rattle.lp_definitions.specs.LinearProgram.{IsVariable, value_at};
ghost use Rattle.long_programs.specs.Programs.{order_to};
ghost use Rattle.long_programs.specs.Places.{IsSpread};
ghost use Rattle.long_programs.specs.Orders.{program_at, AreOrders};

use crate::programs::shift_at;
use crate::spread_at::SpreadAt;
use crate::spreads::{Spread, top_of};
use exact_sums::Sum;
use frac128::Frac;
use std::alloc::{AllocError, Global};
use std::cmp::Ordering;

/// How a value compares with its limits, each if it is there.
#[derive(Clone, Copy)]
pub struct LimitOrders {
    pub lower: Option<Ordering>,
    pub upper: Option<Ordering>,
}

// How the value of variable `k` compares with a limit to which theta times its shift is added, if it is there.
fn compare_to_limit(
    alloc: Global,
    point: &Spread,
    k: u32,
    limit: Option<Frac>,
    shift: Frac,
) -> Result<Option<Ordering>, AllocError>
    requires first { 1 ≤ k }
    requires last { k ≤ length point.now.column.tops.items }
    ensures { IfOk result (λ order. (values : List ℚ) → (theta : ℚ) → IsSpread values theta point.now →
        order ≡ order_to (option_map (λ l. l +ℚ theta *ℚ shift) limit) (value_at values k)) }
{
    let Some(limit) = limit else {
        return Ok(None);
    };
    let mut sum = Sum::zero(alloc)?;
    sum.add(alloc, Frac::whole(1), top_of(&point.column, k))?;
    sum.add(alloc, limit.neg(), &point.column.bottom)?;
    sum.add(alloc, shift.neg(), &point.moved)?;
    Ok(Some(sum.sign()))
}

/// How the value of variable `k` compares with its limits at theta.
pub fn compare_to_limits(
    alloc: Global,
    point: &SpreadAt<'_>,
    k: u32,
) -> Result<LimitOrders, AllocError>
    requires { IsVariable point.now.program.lp.now.matrix k }
    ensures { IfOk result
        (λ orders. (values : List ℚ) → (theta : ℚ) → IsSpread values theta point.now.spread.now →
        AreOrders (program_at point.now theta) (value_at values k) k orders) }
{
    let lp = point.program.lp;
    let shift = shift_at(&point.program, k);
    let lower = compare_to_limit(alloc, point.spread, k, lp.lower_limit(k), shift)?;
    let upper = compare_to_limit(alloc, point.spread, k, lp.upper_limit(k), shift)?;
    Ok(LimitOrders { lower, upper })
}
