// The multipliers that show that no point is feasible.
ghost use Rattle.std.specs.Prelude.{◌≡◌, ◌↔◌, ℕ, IsTrue, IfOk, length};
ghost use Rattle.exact_values.specs.Rational.{ℚ};
ghost use Rattle.lp_definitions.specs.LinearProgram.{size, value_at};
ghost use Rattle.problem_definitions.specs.Problem.{Problem};
ghost use Rattle.question_definitions.specs.Answers.{Changing};
ghost use Rattle.check_definitions.specs.Steps.{AllHold};
ghost use Rattle.check_definitions.specs.Checks.{infeasible_steps};
ghost use Rattle.walk_definitions.specs.Checkers.{checker_of_any_length};
ghost use Rattle.walk_definitions.specs.Tests.{infeasible_past};
ghost use Rattle.long_vectors.specs.Vectors.{IsValue};
ghost use Rattle.long_programs.specs.Programs.{program_of};
ghost use Rattle.answer_definitions.specs.ParametricRuns.{family_of};
ghost use Rattle.simplex_definitions.specs.RhsRun.{rhs_family};
ghost use Rattle.long_solutions.specs.Answers.{Answers};
ghost use Rattle.checks_of_any_length.specs.Orders.{negative_by, at_most_by};

use frac128::Frac;
use listing_words::{Allowance, Number};
use long_points::{both, take_sums};
use long_programs::{AtTheta, ChangeAt, ProgramAt};
use long_rays::{limits_order, ray_vanishes, shift_order};
use long_vectors::{Column, Value, column_of, take_products};
use lp_model::Lp;
use std::alloc::{AllocError, Global};
use std::cmp::Ordering;

// Whether a sum is there and is negative.
fn is_negative(order: Option<Ordering>) -> bool
    ensures { result ≡ negative_by order }
{
    matches!(order, Some(Ordering::Less))
}

// Whether a sum is there and isn't positive.
fn is_at_most(order: Option<Ordering>) -> bool
    ensures { result ≡ at_most_by order }
{
    matches!(order, Some(Ordering::Less | Ordering::Equal))
}

// Takes from the allowance what the sums of multipliers are, and their products with both numbers of theta.
fn take_ray(allowance: &mut Allowance, at: &AtTheta<'_>, ray: &Column) -> Result<(), AllocError> {
    take_sums(allowance, at.program.lp, ray)?;
    take_products(allowance, ray, &at.theta.top)?;
    take_products(allowance, ray, &at.theta.bottom)
}

/// Whether multipliers show that no point is feasible at theta.
pub fn ray_holds(
    alloc: Global,
    at: &AtTheta<'_>,
    ray: &[Number<'_>],
    allowance: &mut Allowance,
) -> Result<bool, AllocError>
    requires { length ray.now ≡ size at.now.program.lp.now.matrix }
    ensures { IfOk result
        (λ holds. (x : ℚ) → IsValue x at.now.theta.now →
        IsTrue holds ↔ AllHold
        (infeasible_steps (program_of at.now.program.lp.now at.now.program.change x)
        (value_at ray.now))) }
{
    let column = column_of(alloc, ray, allowance)?;
    take_ray(allowance, at, &column)?;
    let vanishes = ray_vanishes(alloc, at.program.lp, &column)?;
    let order = limits_order(alloc, at, &column)?;
    let contradicts = is_negative(order);
    Ok(both(vanishes, contradicts))
}

/// Whether multipliers show that no point is feasible past theta.
pub fn past_ray_holds(
    alloc: Global,
    lp: &Lp,
    shift: &[Frac],
    theta: &Value,
    ray: &[Number<'_>],
    allowance: &mut Allowance,
) -> Result<bool, AllocError>
    requires shifts { length shift.now ≡ lp.now.matrix.rows }
    requires places { length ray.now ≡ size lp.now.matrix }
    ensures { IfOk result
        (λ holds. (x : ℚ) → (problem : Problem ℕ) → (changing : Changing) → IsValue x theta.now →
        rhs_family lp.now shift.now x ≡
        family_of (record { problem = problem; lp = lp.now }) changing x →
        Answers holds
        (infeasible_past checker_of_any_length
        (record { problem = problem; lp = lp.now }) changing shift.now x (value_at ray.now))) }
{
    let program = ProgramAt {
        lp,
        change: ChangeAt::Set(shift),
    };
    let at = AtTheta { program, theta };
    let column = column_of(alloc, ray, allowance)?;
    take_ray(allowance, &at, &column)?;
    let vanishes = ray_vanishes(alloc, lp, &column)?;
    let order = limits_order(alloc, &at, &column)?;
    let fall = shift_order(alloc, lp, shift, &column)?;
    let within = is_at_most(order);
    let falls = fall.is_lt();
    let rest = both(within, falls);
    Ok(both(vanishes, rest))
}
