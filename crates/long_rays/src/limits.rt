// The limits that the multipliers of a ray meet.
ghost use Rattle.std.specs.Prelude.{◌≡◌, List, IfOk, true, is_some, option_map, length, unwrap_or};
ghost use Rattle.exact_values.specs.Rational.{ℚ, whole, zero_ℚ, ◌+ℚ◌, ◌*ℚ◌};
ghost use Rattle.lp_definitions.specs.LinearProgram.{IsVariable, size, value_at};
ghost use Rattle.long_vectors.specs.Vectors.{IsOver, IsValue};
ghost use Rattle.long_programs.specs.Programs.{program_of};
ghost use Rattle.long_rays.specs.Tests.{limit_by, IsMet, SumsTo};

use exact_sums::Sum;
use frac128::Frac;
use integers::Integer;
use long_points::sign_of;
use long_programs::{AtTheta, shift_at, top_of};
use long_vectors::{Column, Value};
use std::alloc::{AllocError, Global};
use std::cmp::Ordering;

// Adds a multiplier times a limit to which theta times its shift is added, times both denominators, if the limit is there.
fn add_limit(
    alloc: Global,
    sum: &mut Sum,
    limit: Option<Frac>,
    shift: Frac,
    top: &Integer,
    theta: &Value,
) -> Result<bool, AllocError>
    ensures met { IfOk result (λ met. met ≡ is_some limit) }
    ensures sum { IfOk result
        (λ met. (x y d : ℚ) → whole top.now ≡ y *ℚ d → IsValue x theta.now → met ≡ true →
        sum.new ≡ sum.old +ℚ y *ℚ unwrap_or (option_map (λ l. l +ℚ x *ℚ shift) limit) zero_ℚ *ℚ
        (d *ℚ whole theta.now.bottom)) }
{
    let Some(limit) = limit else {
        return Ok(false);
    };
    let scaled = top.product(alloc, &theta.bottom)?;
    let moved = top.product(alloc, &theta.top)?;
    sum.add(alloc, limit, &scaled)?;
    sum.add(alloc, shift, &moved)?;
    Ok(true)
}

// The limit that a multiplier of this sign meets: the upper one if it is positive, else the lower one.
fn limit_by(sign: Ordering, lower: Option<Frac>, upper: Option<Frac>) -> Option<Frac>
    ensures { result ≡ limit_by sign lower upper }
{
    match sign {
        Ordering::Less | Ordering::Equal => lower,
        Ordering::Greater => upper,
    }
}

// Adds the multiplier of variable `k`, if it isn't 0, times the limit at theta that it meets, times both denominators.
fn add_met(
    alloc: Global,
    sum: &mut Sum,
    at: &AtTheta<'_>,
    ray: &Column,
    k: u32,
) -> Result<bool, AllocError>
    requires variable { IsVariable at.now.program.lp.now.matrix k }
    requires places { length ray.now.tops.items ≡ size at.now.program.lp.now.matrix }
    ensures { IfOk result
        (λ met. (w : List ℚ) → (x : ℚ) → IsOver w ray.now → IsValue x at.now.theta.now →
        IsMet (program_of at.now.program.lp.now at.now.program.change x) (value_at w) k met sum.old sum.new
        (whole ray.now.bottom *ℚ whole at.now.theta.now.bottom)) }
{
    let top = top_of(ray, k);
    let sign = sign_of(alloc, top);
    if sign.is_eq() {
        return Ok(true);
    }
    let lp = at.program.lp;
    let limit = limit_by(sign, lp.lower_limit(k), lp.upper_limit(k));
    let shift = shift_at(&at.program, k);
    let met = add_limit(alloc, sum, limit, shift, top, at.theta)?;
    Ok(met)
}

/// How the multipliers, each times the limit at theta that it meets, add up as against 0, if each that isn't 0 meets a limit.
pub fn limits_order(
    alloc: Global,
    at: &AtTheta<'_>,
    ray: &Column,
) -> Result<Option<Ordering>, AllocError>
    requires { length ray.now.tops.items ≡ size at.now.program.lp.now.matrix }
    ensures { IfOk result
        (λ order. (w : List ℚ) → (x : ℚ) → IsOver w ray.now → IsValue x at.now.theta.now →
        SumsTo (program_of at.now.program.lp.now at.now.program.change x) (value_at w) order) }
{
    let lp = at.program.lp;
    let mut sum = Sum::zero(alloc)?;
    for i in 0..lp.number_of_variables() {
        let met = add_met(alloc, &mut sum, at, ray, i + 1)?;
        if !met {
            return Ok(None);
        }
    }
    Ok(Some(sum.sign()))
}
