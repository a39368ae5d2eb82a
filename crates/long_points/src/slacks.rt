// The slacks of the rows.
ghost use Rattle.std.specs.Prelude.{◌≡◌, ◌↔◌, ℕ, List, IsTrue, IfOk, length};
ghost use Rattle.std.specs.List.{flat_map};
ghost use Rattle.exact_values.specs.Rational.{ℚ, whole, zero_ℚ, ◌-ℚ◌, ◌*ℚ◌, ◌<ℚ◌};
ghost use Rattle.exact_values.specs.Tests.{eq_ℚ};
ghost use Rattle.lp_definitions.specs.LinearProgram.{IsRow, size, value_at};
ghost use Rattle.problem_definitions.specs.Problem.{Problem};
ghost use Rattle.check_definitions.specs.Steps.{AllHold};
ghost use Rattle.answer_definitions.specs.Lines.{row_numbers};
ghost use Rattle.walk_definitions.specs.Tests.{slack_steps};
ghost use Rattle.long_vectors.specs.Vectors.{IsValue, IsOver};
ghost use Rattle.long_points.specs.Tests.{slack_test};

use crate::each::each_holds;
use exact_sums::Sum;
use frac128::Frac;
use integers::Integer;
use listing_words::Number;
use long_programs::top_of;
use long_vectors::{Column, Value, value_of};
use lp_model::Lp;
use std::alloc::{AllocError, Global};

// The right-hand side of row `i`.
fn right_hand_side(lp: &Lp, i: u32) -> Frac
    requires { IsRow lp.now.matrix i }
    ensures { result ≡ value_at lp.now.rhs i }
{
    lp.rhs[i as usize - 1]
}

// The right-hand side of row `i` less its activity, times the denominator of the activities.
fn left_over(alloc: Global, lp: &Lp, point: &Column, i: u32) -> Result<Sum, AllocError>
    requires row { IsRow lp.now.matrix i }
    requires places { length point.now.tops.items ≡ size lp.now.matrix }
    ensures { IfOk result (λ sum. (values : List ℚ) → IsOver values point.now →
        sum ≡ (value_at lp.now.rhs i -ℚ value_at values i) *ℚ whole point.now.bottom) }
{
    let _size = lp.number_of_variables();
    let mut sum = Sum::zero(alloc)?;
    sum.add(alloc, right_hand_side(lp, i), &point.bottom)?;
    sum.add(alloc, Frac::whole(-1), top_of(point, i))?;
    Ok(sum)
}

// Whether two whole numbers are equal.
fn are_equal(a: &Integer, b: &Integer) -> bool
    ensures { IsTrue result ↔ a.now ≡ b.now }
{
    a.compare(b).is_eq()
}

// Whether a number times a denominator is another one. Where both have one denominator no product is made.
fn is_over(alloc: Global, left: Sum, bottom: &Integer, slack: &Value) -> Result<bool, AllocError>
    ensures { IfOk result (λ holds. (x s : ℚ) → zero_ℚ <ℚ whole bottom.now →
        left ≡ x *ℚ whole bottom.now → IsValue s slack.now → holds ≡ eq_ℚ x s) }
{
    let mut sum = left;
    let minus = Frac::whole(-1);
    if are_equal(&slack.bottom, bottom) {
        sum.add(alloc, minus, &slack.top)?;
        return Ok(sum.sign().is_eq());
    }
    let shown = slack.top.product(alloc, bottom)?;
    sum.multiply(alloc, &slack.bottom)?;
    sum.add(alloc, minus, &shown)?;
    Ok(sum.sign().is_eq())
}

// Whether the slack of row `i` is its right-hand side less its activity. Each slack keeps a denominator of its own, so that a row costs
// two products of a number over the common denominator with one of its own size, and none where the slack has that denominator.
fn slack_holds(
    alloc: Global,
    lp: &Lp,
    point: &Column,
    slacks: &[Number<'_>],
    i: u32,
) -> Result<bool, AllocError>
    requires row { IsRow lp.now.matrix i }
    requires places { length point.now.tops.items ≡ size lp.now.matrix }
    requires slack_places { length slacks.now ≡ lp.now.matrix.rows }
    ensures { IfOk result (λ holds. (values : List ℚ) → IsOver values point.now →
        holds ≡ slack_test lp.now (value_at values) (value_at slacks.now) i) }
{
    let slack = value_of(alloc, &slacks[i as usize - 1])?;
    let left = left_over(alloc, lp, point, i)?;
    let holds = is_over(alloc, left, &point.bottom, &slack)?;
    Ok(holds)
}

/// Whether the slacks of the rows are their right-hand sides less their activities.
pub fn slacks_hold(
    alloc: Global,
    lp: &Lp,
    point: &Column,
    slacks: &[Number<'_>],
) -> Result<bool, AllocError>
    requires places { length point.now.tops.items ≡ size lp.now.matrix }
    requires slack_places { length slacks.now ≡ lp.now.matrix.rows }
    ensures { IfOk result
        (λ holds. (values : List ℚ) → (problem : Problem ℕ) → IsOver values point.now →
        IsTrue holds ↔ AllHold
        (flat_map (slack_steps (record { problem = problem; lp = lp.now }) (value_at values)
        (value_at slacks.now)) (row_numbers lp.now))) }
{
    let holds = each_holds(lp.rows, |i| slack_holds(alloc, lp, point, slacks, i))?;
    Ok(holds)
}
