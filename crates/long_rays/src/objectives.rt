// The objective of a direction, and other numbers of a vector.
ghost use Rattle.std.specs.Prelude.{◌≡◌, ◌≤◌, ℕ, List, IfOk, length};
ghost use Rattle.exact_values.specs.Rational.{ℚ, whole, zero_ℚ, compare_ℚ, ◌+ℚ◌, ◌*ℚ◌};
ghost use Rattle.exact_values.specs.Tests.{eq_ℚ};
ghost use Rattle.lp_definitions.specs.LinearProgram.{size, value_at, for_min, objective_value};
ghost use Rattle.problem_definitions.specs.Problem.{Problem};
ghost use Rattle.question_definitions.specs.Answers.{Changing};
ghost use Rattle.check_definitions.specs.Steps.{sum_of};
ghost use Rattle.walk_definitions.specs.Tests.{shift_products};
ghost use Rattle.long_vectors.specs.Vectors.{IsOver, IsValue};
ghost use Rattle.long_programs.specs.Programs.{program_of, IsPlain};
ghost use Rattle.long_rays.specs.Tests.{change_value};

use exact_sums::Sum;
use frac128::Frac;
use integers::Integer;
use long_points::counted;
use long_programs::{AtTheta, ChangeAt, top_of};
use long_vectors::{Column, Value};
use lp_model::Lp;
use std::alloc::{AllocError, Global};
use std::cmp::Ordering;

// Adds the value of variable `k` times a number, times the denominator.
fn add_value(
    alloc: Global,
    sum: &mut Sum,
    column: &Column,
    k: u32,
    times: &Integer,
) -> Result<(), AllocError>
    requires first { 1 ≤ k }
    requires last { k ≤ length column.now.tops.items }
    ensures { IfOk result (λ done. (values : List ℚ) → IsOver values column.now →
        sum.new ≡ sum.old +ℚ value_at values k *ℚ whole column.now.bottom *ℚ whole times.now) }
{
    let scaled = top_of(column, k).product(alloc, times)?;
    sum.add(alloc, Frac::whole(1), &scaled)?;
    Ok(())
}

// Adds theta times the value of the row that changes the objective, if one does, times both denominators.
fn add_change(
    alloc: Global,
    sum: &mut Sum,
    at: &AtTheta<'_>,
    direction: &Column,
) -> Result<(), AllocError>
    requires { length direction.now.tops.items ≡ size at.now.program.lp.now.matrix }
    ensures { IfOk result
        (λ done. (d : List ℚ) → (x : ℚ) → IsOver d direction.now → IsValue x at.now.theta.now →
        sum.new ≡ sum.old +ℚ x *ℚ change_value at.now.program.change (value_at d) *ℚ
        (whole direction.now.bottom *ℚ whole at.now.theta.now.bottom)) }
{
    let lp = at.program.lp;
    let _size = lp.number_of_variables();
    match at.program.change {
        ChangeAt::Row(row) => {
            add_value(alloc, sum, direction, row, &at.theta.top)?;
            Ok(())
        }
        ChangeAt::Unchanged => Ok(()),
        ChangeAt::Set(_) => Ok(()),
    }
}

/// How the objective of a direction at theta compares with 0, as it counts where less is better.
pub fn objective_order(
    alloc: Global,
    at: &AtTheta<'_>,
    direction: &Column,
) -> Result<Ordering, AllocError>
    requires plain { IsPlain at.now.program.lp.now at.now.program.change }
    requires places { length direction.now.tops.items ≡ size at.now.program.lp.now.matrix }
    ensures { IfOk result
        (λ order. (d : List ℚ) → (x : ℚ) → IsOver d direction.now → IsValue x at.now.theta.now →
        order ≡ compare_ℚ
        (for_min at.now.program.lp.now.sense
        (objective_value (program_of at.now.program.lp.now at.now.program.change x) (value_at d)))
        zero_ℚ) }
{
    let lp = at.program.lp;
    let _size = lp.number_of_variables();
    let mut sum = Sum::zero(alloc)?;
    add_value(alloc, &mut sum, direction, lp.objective, &at.theta.bottom)?;
    add_change(alloc, &mut sum, at, direction)?;
    Ok(counted(lp.sense, sum.sign()))
}

// The shift of row `i`.
fn shift_of(shift: &[Frac], i: u32) -> Frac
    requires first { 1 ≤ i }
    requires last { i ≤ length shift.now }
    ensures { result ≡ value_at shift.now i }
{
    shift[i as usize - 1]
}

/// How the multipliers of the rows, each times the row's shift, add up as against 0.
pub fn shift_order(
    alloc: Global,
    lp: &Lp,
    shift: &[Frac],
    ray: &Column,
) -> Result<Ordering, AllocError>
    requires shifts { length shift.now ≡ lp.now.matrix.rows }
    requires places { length ray.now.tops.items ≡ size lp.now.matrix }
    ensures { IfOk result
        (λ order. (w : List ℚ) → (problem : Problem ℕ) → (changing : Changing) → IsOver w ray.now →
        order ≡ compare_ℚ
        (sum_of zero_ℚ
        (shift_products (record { problem = problem; lp = lp.now }) changing shift.now
        (value_at w))) zero_ℚ) }
{
    let _size = lp.number_of_variables();
    let mut sum = Sum::zero(alloc)?;
    for i in 0..lp.rows {
        sum.add(alloc, shift_of(shift, i + 1), top_of(ray, i + 1))?;
    }
    Ok(sum.sign())
}

/// Whether a number is the value of variable `k`.
pub fn is_value_of(
    alloc: Global,
    number: &Value,
    column: &Column,
    k: u32,
) -> Result<bool, AllocError>
    requires first { 1 ≤ k }
    requires last { k ≤ length column.now.tops.items }
    ensures { IfOk result
        (λ holds. (x : ℚ) → (values : List ℚ) → IsValue x number.now → IsOver values column.now →
        holds ≡ eq_ℚ x (value_at values k)) }
{
    let own = number.top.product(alloc, &column.bottom)?;
    let value = top_of(column, k).product(alloc, &number.bottom)?;
    let mut sum = Sum::zero(alloc)?;
    sum.add(alloc, Frac::whole(1), &own)?;
    sum.add(alloc, Frac::whole(-1), &value)?;
    Ok(sum.sign().is_eq())
}
