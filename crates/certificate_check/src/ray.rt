//! The parts of a check on a ray: its multipliers vanish on the columns, and contradict the limits.

ghost use Rattle.std.specs.Prelude.{◌≡◌, [], ◌∷◌, ◌++◌, Option, is_some, length, unwrap_or, if◌then◌else◌, map};
ghost use Rattle.exact_values.specs.Rational.{zero_ℚ, ◌+ℚ◌, ◌*ℚ◌};
ghost use Rattle.exact_values.specs.Tests.{lt_ℚ};
ghost use Rattle.lp_definitions.specs.LinearProgram.{IsColumn, IsVariable, size, value_at, lower_of, upper_of};
ghost use Rattle.check_definitions.specs.Steps.{comparison, verdict_of, sum_steps, sum_of};
ghost use Rattle.check_definitions.specs.Checks.{ray_column, ray_columns, ray_limits, ray_sum, multiplied, multiplied_among, limit_product};
ghost use Rattle.certificate_check.specs.Results.{verdict_from, Leads};

use crate::comparisons::is_equal;
use crate::stops::{Stopped, compare};
use crate::sums::{add_product, column_sum, value_of};
use frac128::Frac;
use lp_model::Lp;

/// The multipliers of the rows times the numbers of the column, and the multiplier of the column, add up to 0.
fn vanishes_on(lp: &Lp, ray: &[Frac], column: u32) -> Result<(), Stopped>
    requires column { IsColumn lp.now.matrix column }
    requires places { length ray.now ≡ size lp.now.matrix }
    ensures { verdict_from result ≡ verdict_of (ray_column lp.now (value_at ray.now) column) }
{
    let variable = lp.rows + column;
    let sum = column_sum(value_of(ray, variable), lp.column(column), ray)?;
    compare(is_equal(sum, Frac::whole(0)), 1, variable)
}

/// The multipliers vanish on each column.
pub fn vanishes(lp: &Lp, ray: &[Frac]) -> Result<(), Stopped>
    requires { length ray.now ≡ size lp.now.matrix }
    ensures { verdict_from result ≡ verdict_of (ray_columns lp.now (value_at ray.now)) }
{
    for i in 0..lp.cols {
        vanishes_on(lp, ray, i + 1)?;
    }
    Ok(())
}

/// The limit that a multiplier of the variable meets: the upper one if it is positive, else the lower one.
pub fn limit_met(lp: &Lp, multiplier: Frac, k: u32) -> Option<Frac>
    requires { IsVariable lp.now.matrix k }
    ensures { result ≡ (if lt_ℚ zero_ℚ multiplier then upper_of lp.now k else lower_of lp.now k) }
{
    if Frac::whole(0).is_less(multiplier) {
        lp.upper_limit(k)
    } else {
        lp.lower_limit(k)
    }
}

/// The sum, and the multiplier times the limit that it meets.
fn add_met(sum: Frac, multiplier: Frac, limit: Option<Frac>, k: u32) -> Result<Frac, Stopped>
    ensures { Leads result (comparison 2 k (is_some limit) ∷ sum_steps sum
        (record { left = multiplier; right = unwrap_or limit zero_ℚ } ∷ []))
        (sum +ℚ multiplier *ℚ unwrap_or limit zero_ℚ) }
{
    match limit {
        None => Err(Stopped::Comparison { part: 2, number: k }),
        Some(limit) => Ok(add_product(sum, multiplier, limit)?),
    }
}

/// The sum, and the product of the variable's multiplier, if it is not 0, with the limit that it meets.
fn add_limit(lp: &Lp, ray: &[Frac], sum: Frac, k: u32) -> Result<Frac, Stopped>
    requires variable { IsVariable lp.now.matrix k }
    requires places { length ray.now ≡ size lp.now.matrix }
    ensures { let w = value_at ray.now in let ks = multiplied_among w (k ∷ []) in Leads result
        (ray_limits lp.now w sum ks) (sum_of sum (map (limit_product lp.now w) ks)) }
{
    let multiplier = value_of(ray, k);
    if multiplier.is_zero() {
        return Ok(sum);
    }
    add_met(sum, multiplier, limit_met(lp, multiplier, k), k)
}

/// The sum of the multipliers that are not 0, each times the limit that it meets.
fn limit_sum(lp: &Lp, ray: &[Frac]) -> Result<Frac, Stopped>
    requires { length ray.now ≡ size lp.now.matrix }
    ensures { let w = value_at ray.now in Leads result
        (ray_limits lp.now w zero_ℚ (multiplied lp.now w)) (sum_of zero_ℚ
        (map (limit_product lp.now w) (multiplied lp.now w))) }
{
    let mut sum = Frac::whole(0);
    for i in 0..lp.number_of_variables() {
        sum = add_limit(lp, ray, sum, i + 1)?;
    }
    Ok(sum)
}

/// Each multiplier that is not 0 meets a limit, and the products can be added up.
pub fn limits_are_met(lp: &Lp, ray: &[Frac]) -> Result<(), Stopped>
    requires { length ray.now ≡ size lp.now.matrix }
    ensures { let w = value_at ray.now in verdict_from result ≡ verdict_of
        (ray_limits lp.now w zero_ℚ (multiplied lp.now w)) }
{
    let _sum = limit_sum(lp, ray)?;
    Ok(())
}

/// Each multiplier that is not 0 meets a limit, and the sum of these products is negative.
pub fn limits_contradict(lp: &Lp, ray: &[Frac]) -> Result<(), Stopped>
    requires { length ray.now ≡ size lp.now.matrix }
    ensures { let w = value_at ray.now in verdict_from result ≡ verdict_of
        (ray_limits lp.now w zero_ℚ (multiplied lp.now w) ++ ray_sum lp.now w) }
{
    let sum = limit_sum(lp, ray)?;
    compare(sum.is_less(Frac::whole(0)), 3, 0)
}
