// The tests of how a parametric run closes.
ghost use Rattle.std.specs.Prelude.{◌≡◌, ◌&&◌, [], ◌∷◌, IfOk, length};
ghost use Rattle.exact_values.specs.Rational.{ℚ};
ghost use Rattle.exact_values.specs.Tests.{eq_ℚ, lt_ℚ};
ghost use Rattle.lp_definitions.specs.LinearProgram.{size};
ghost use Rattle.check_definitions.specs.Steps.{in_turn};
ghost use Rattle.listing_claims.specs.Claims.{IsPairOf};
ghost use Rattle.parametric_request.specs.Asking.{ServesChange};
ghost use Rattle.walk_definitions.specs.Checkers.{checker_of_any_length};
ghost use Rattle.walk_definitions.specs.Tests.{asked};
ghost use Rattle.listing_claims.specs.Asked.{sheet_of, changing_in};
ghost use Rattle.listing_claims.specs.Closings.{ClosingFits, unbounded_test, infeasible_test, closing_test};
ghost use Rattle.long_vectors.specs.Vectors.{IsValue};
ghost use Rattle.long_solutions.specs.Answers.{Answers};

use crate::directions::past_pair_holds;
use crate::rays::past_ray_holds;
use frac128::Frac;
use listing_claims::{Closing, Pair, SheetRun};
use listing_words::{Allowance, Number};
use long_points::both;
use long_solutions::{compare_values, compare_with_fraction};
use long_vectors::{Value, value_of};
use parametric_request::Change;
use std::alloc::{AllocError, Global};

// Whether a number is the last end, and the last value.
fn ends_at(alloc: Global, value: &Value, last: &Value, most: Frac) -> Result<bool, AllocError>
    ensures { IfOk result
        (λ holds. (t l : ℚ) → IsValue t value.now → IsValue l last.now →
        holds ≡ (eq_ℚ t l && eq_ℚ t most)) }
{
    let order = compare_values(alloc, value, last)?;
    let most_order = compare_with_fraction(alloc, value, most)?;
    let same = order.is_eq();
    let ends = most_order.is_eq();
    Ok(both(same, ends))
}

// Whether a number is the last end, before the last value.
fn goes_past(alloc: Global, value: &Value, last: &Value, most: Frac) -> Result<bool, AllocError>
    ensures { IfOk result
        (λ holds. (t l : ℚ) → IsValue t value.now → IsValue l last.now →
        holds ≡ (eq_ℚ t l && lt_ℚ t most)) }
{
    let order = compare_values(alloc, value, last)?;
    let most_order = compare_with_fraction(alloc, value, most)?;
    let same = order.is_eq();
    let goes_on = most_order.is_lt();
    Ok(both(same, goes_on))
}

// Whether a run ends at its last value.
fn end_holds(
    alloc: Global,
    value: &Number<'_>,
    last: &Value,
    most: Frac,
) -> Result<bool, AllocError>
    ensures { IfOk result
        (λ holds. (l : ℚ) → IsValue l last.now →
        Answers holds (in_turn (asked (eq_ℚ value.now l) ∷ asked (eq_ℚ value.now most) ∷ []))) }
{
    let own = value_of(alloc, value)?;
    let holds = ends_at(alloc, &own, last, most)?;
    Ok(holds)
}

// Whether a run of the objective closes so that past a value there is no best point.
fn unbounded_holds(
    alloc: Global,
    run: &SheetRun<'_, '_>,
    last: &Value,
    value: &Number<'_>,
    pair: &Pair<'_>,
    allowance: &mut Allowance,
) -> Result<bool, AllocError>
    requires serves { ServesChange run.now.sheet.problem.now run.now.sheet.lp.now
        run.now.request.now.name run.now.request.now.change }
    requires pair { IsPairOf run.now.sheet.lp.now pair.now }
    ensures { IfOk result
        (λ holds. (l : ℚ) → IsValue l last.now →
        Answers holds
        (unbounded_test checker_of_any_length (sheet_of run.now) (changing_in run.now)
        run.now.request.now.to l value.now pair.now.point.items pair.now.direction.items)) }
{
    match &run.request.change {
        Change::Row(row) => {
            let theta = value_of(alloc, value)?;
            let past = goes_past(alloc, &theta, last, run.request.to)?;
            let shown = past_pair_holds(alloc, run.sheet.lp, *row, &theta, pair, allowance)?;
            Ok(both(past, shown))
        }
        Change::Set(_) => Ok(false),
    }
}

// Whether a run of the right-hand side closes so that past a value no point is feasible.
fn infeasible_holds(
    alloc: Global,
    run: &SheetRun<'_, '_>,
    last: &Value,
    value: &Number<'_>,
    ray: &[Number<'_>],
    allowance: &mut Allowance,
) -> Result<bool, AllocError>
    requires serves { ServesChange run.now.sheet.problem.now run.now.sheet.lp.now
        run.now.request.now.name run.now.request.now.change }
    requires places { length ray.now ≡ size run.now.sheet.lp.now.matrix }
    ensures { IfOk result
        (λ holds. (l : ℚ) → IsValue l last.now →
        Answers holds
        (infeasible_test checker_of_any_length (sheet_of run.now) (changing_in run.now)
        run.now.request.now.to l value.now ray.now)) }
{
    match &run.request.change {
        Change::Row(_) => Ok(false),
        Change::Set(shift) => {
            let theta = value_of(alloc, value)?;
            let past = goes_past(alloc, &theta, last, run.request.to)?;
            let shown = past_ray_holds(alloc, run.sheet.lp, shift, &theta, ray, allowance)?;
            Ok(both(past, shown))
        }
    }
}

/// Whether a run closes so whose last interval ends at a value.
pub fn closing_holds(
    alloc: Global,
    run: &SheetRun<'_, '_>,
    last: &Number<'_>,
    closing: &Closing<'_>,
    allowance: &mut Allowance,
) -> Result<bool, AllocError>
    requires serves { ServesChange run.now.sheet.problem.now run.now.sheet.lp.now
        run.now.request.now.name run.now.request.now.change }
    requires fits { ClosingFits run.now.sheet.lp.now closing.now }
    ensures { IfOk result
        (λ holds. Answers holds
        (closing_test checker_of_any_length (sheet_of run.now) (changing_in run.now)
        run.now.request.now.to last.now closing.now)) }
{
    let end = value_of(alloc, last)?;
    match closing {
        Closing::At(value) => {
            let ends = end_holds(alloc, value, &end, run.request.to)?;
            Ok(ends)
        }
        Closing::Unbounded(value, pair) => {
            let goes_on = unbounded_holds(alloc, run, &end, value, pair, allowance)?;
            Ok(goes_on)
        }
        Closing::Infeasible(value, ray) => {
            let shown = infeasible_holds(alloc, run, &end, value, ray, allowance)?;
            Ok(shown)
        }
    }
}
