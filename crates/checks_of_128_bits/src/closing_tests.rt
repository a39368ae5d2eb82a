// The tests of how a parametric run closes.
ghost use Rattle.std.specs.Prelude.{◌≡◌, [], ◌∷◌, is_some, unwrap_or, length, map};
ghost use Rattle.exact_values.specs.Rational.{ℚ, zero_ℚ, ◌+ℚ◌, ◌*ℚ◌};
ghost use Rattle.exact_values.specs.Tests.{eq_ℚ};
ghost use Rattle.lp_definitions.specs.LinearProgram.{IsRow, IsVariable, size, value_at};
ghost use Rattle.check_definitions.specs.Steps.{comparison, verdict_of, in_turn, sum_steps, sum_of};
ghost use Rattle.check_definitions.specs.Checks.{limit_product, ray_limits, multiplied, multiplied_among};
ghost use Rattle.question_definitions.specs.Answers.{Changing};
ghost use Rattle.parametric_request.specs.Asking.{ServesChange};
ghost use Rattle.walk_definitions.specs.Checkers.{checker_of_128_bits};
ghost use Rattle.walk_definitions.specs.Tests.{asked, past_test, unbounded_past, infeasible_past, shift_products};
ghost use Rattle.listing_words.specs.Read.{sheet_view};
ghost use Rattle.listing_claims.specs.Asked.{IsAskedOf, sheet_of, changing_in};
ghost use Rattle.listing_claims.specs.Passing.{Judges};
ghost use Rattle.checks_of_128_bits.specs.Making.{Makes};
ghost use Rattle.listing_claims.specs.Claims.{IsPairOf};
ghost use Rattle.listing_claims.specs.Closings.{unbounded_test, infeasible_test};
ghost use Rattle.checks_of_128_bits.specs.Closings.{improving_test};
ghost use Rattle.checks_of_128_bits.specs.Fractions.{HasPair};

use crate::families::{plus_product, program_at};
use crate::fractions::{FractionPair, fraction, fractions, pair_of};
use crate::judging::{ask, is_at_most, judge};
use certificate_check::{
    check_combination, check_direction, check_direction_limits, check_point, counted_for, is_equal,
    limit_met,
};
use frac128::Frac;
use listing_claims::{Pair, SheetRun, Stop};
use listing_tables::{Sheet, objective_of};
use listing_words::Number;
use lp_model::Lp;
use parametric_request::Change;
use std::alloc::Global;

// ---- past a value there is no best point

// The objective of a direction doesn't get worse at a value, and its change row improves.
fn check_improving(lp: &Lp, row: u32, value: Frac, direction: &[Frac]) -> Result<(), Stop>
    requires row { IsRow lp.now.matrix row }
    requires places { length direction.now ≡ size lp.now.matrix }
    ensures { Judges (improving_test lp.now row value (value_at direction.now)) result }
{
    let improve = direction[row as usize - 1];
    let slope = plus_product(objective_of(lp, direction), value, improve)?;
    ask(is_at_most(counted_for(lp.sense, slope), Frac::whole(0)))?;
    ask(counted_for(lp.sense, improve).is_less(Frac::whole(0)))
}

// A feasible point, and a direction that keeps all limits and improves past a value.
fn check_unbounded_past(
    sheet: Sheet<'_>,
    row: u32,
    value: Frac,
    point: &[Frac],
    direction: &[Frac],
) -> Result<(), Stop>
    requires row { IsRow sheet.lp.now.matrix row }
    requires point_places { length point.now ≡ size sheet.lp.now.matrix }
    requires direction_places { length direction.now ≡ size sheet.lp.now.matrix }
    ensures { (changing : Changing) →
        Judges (unbounded_past checker_of_128_bits
        (sheet_view sheet.entry) changing row value (value_at point.now)
        (value_at direction.now)) result }
{
    judge(check_point(sheet.lp, point))?;
    judge(check_direction(sheet.lp, direction))?;
    judge(check_direction_limits(sheet.lp, direction))?;
    check_improving(sheet.lp, row, value, direction)
}

// ---- past a value no point is feasible

// A sum, and a multiplier times the limit that it meets.
fn plus_met(sum: Frac, multiplier: Frac, limit: Option<Frac>, k: u32) -> Result<Frac, Stop>
    ensures { let met = unwrap_or limit zero_ℚ in
        Makes (λ next. next ≡ sum +ℚ multiplier *ℚ met)
        (verdict_of (comparison 2 k (is_some limit) ∷ sum_steps sum
        (record { left = multiplier; right = met } ∷ []))) result }
{
    match limit {
        Some(limit) => plus_product(sum, multiplier, limit),
        None => Err(Stop::Wrong),
    }
}

// A sum, and the multiplier of a variable times the limit that it meets, if it isn't 0.
fn plus_limit(lp: &Lp, ray: &[Frac], sum: Frac, k: u32) -> Result<Frac, Stop>
    requires variable { IsVariable lp.now.matrix k }
    requires places { length ray.now ≡ size lp.now.matrix }
    ensures { let w = value_at ray.now in let ks = multiplied_among w (k ∷ []) in
        Makes (λ next. next ≡ sum_of sum (map (limit_product lp.now w) ks))
        (verdict_of (ray_limits lp.now w sum ks)) result }
{
    let multiplier = ray[k as usize - 1];
    if multiplier.is_zero() {
        return Ok(sum);
    }
    plus_met(sum, multiplier, limit_met(lp, multiplier, k), k)
}

// The sum of the multipliers that aren't 0, each times the limit that it meets.
fn limit_sum(lp: &Lp, ray: &[Frac]) -> Result<Frac, Stop>
    requires { length ray.now ≡ size lp.now.matrix }
    ensures { let w = value_at ray.now in
        Makes (λ sum. sum ≡ sum_of zero_ℚ (map (limit_product lp.now w) (multiplied lp.now w)))
        (verdict_of (ray_limits lp.now w zero_ℚ
        (multiplied lp.now w))) result }
{
    let mut sum = Frac::whole(0);
    for i in 0..lp.number_of_variables() {
        sum = plus_limit(lp, ray, sum, i + 1)?;
    }
    Ok(sum)
}

// The sum of the multipliers of the rows, each times the row's shift.
fn shift_sum(sheet: Sheet<'_>, shift: &[Frac], ray: &[Frac]) -> Result<Frac, Stop>
    requires shifts { length shift.now ≡ sheet.lp.now.matrix.rows }
    requires places { length ray.now ≡ size sheet.lp.now.matrix }
    ensures { (changing : Changing) →
        let products = shift_products
        (sheet_view sheet.entry) changing shift.now (value_at ray.now) in
        Makes (λ sum. sum ≡ sum_of zero_ℚ products)
        (verdict_of (sum_steps zero_ℚ products)) result }
{
    let mut sum = Frac::whole(0);
    for place in 0..shift.len() {
        sum = plus_product(sum, ray[place], shift[place])?;
    }
    Ok(sum)
}

// A ray at a value, whose limits add up to no more than 0 and fall as the value grows.
fn check_infeasible_past(
    alloc: Global,
    run: &SheetRun<'_, '_>,
    shift: &[Frac],
    value: Frac,
    ray: &[Frac],
) -> Result<(), Stop>
    requires asked { IsAskedOf run.now.sheet run.now.request.now }
    requires shifts { length shift.now ≡ run.now.sheet.lp.now.matrix.rows }
    requires places { length ray.now ≡ size run.now.sheet.lp.now.matrix }
    ensures { Judges
        (infeasible_past checker_of_128_bits (sheet_of run.now) (changing_in run.now) shift.now
        value (value_at ray.now)) result }
{
    let program = program_at(alloc, run, value)?;
    judge(check_combination(&program, ray))?;
    let sum = limit_sum(&program, ray)?;
    ask(is_at_most(sum, Frac::whole(0)))?;
    let fall = shift_sum(run.sheet, shift, ray)?;
    ask(fall.is_less(Frac::whole(0)))
}

// ---- the whole

// It ends at its last value, which is the last end.
fn check_end_at(value: Frac, last: Frac, max: Frac) -> Result<(), Stop>
    ensures { Judges (in_turn (asked (eq_ℚ value last) ∷ asked (eq_ℚ value max) ∷ [])) result }
{
    ask(is_equal(value, last))?;
    ask(is_equal(value, max))
}

// It ends past the last end, which is before the last value, and what comes after it is proved by a point and a direction.
fn check_past_unbounded(
    run: &SheetRun<'_, '_>,
    row: u32,
    value: Frac,
    last: Frac,
    pair: &FractionPair,
) -> Result<(), Stop>
    requires row { IsRow run.now.sheet.lp.now.matrix row }
    requires pair { HasPair run.now.sheet.lp.now pair.now }
    ensures { (changing : Changing) →
        Judges (past_test run.now.request.now.to last value
        (unbounded_past checker_of_128_bits (sheet_of run.now) changing row value
        (value_at pair.now.point.items) (value_at pair.now.direction.items))) result }
{
    ask(is_equal(value, last))?;
    ask(value.is_less(run.request.to))?;
    check_unbounded_past(run.sheet, row, value, &pair.point, &pair.direction)
}

// A run of the objective may close so.
fn check_unbounded(
    run: &SheetRun<'_, '_>,
    last: Frac,
    value: Frac,
    pair: &FractionPair,
) -> Result<(), Stop>
    requires serves { ServesChange run.now.sheet.problem.now run.now.sheet.lp.now
        run.now.request.now.name run.now.request.now.change }
    requires pair { HasPair run.now.sheet.lp.now pair.now }
    ensures { Judges (unbounded_test checker_of_128_bits (sheet_of run.now) (changing_in run.now)
        run.now.request.now.to last value pair.now.point.items pair.now.direction.items) result }
{
    match &run.request.change {
        Change::Row(row) => check_past_unbounded(run, *row, value, last, pair),
        Change::Set(_) => Err(Stop::Wrong),
    }
}

// The value past which a run ends, and the ray that is to prove it.
#[derive(Clone, Copy)]
struct PastRay<'a> {
    value: Frac,
    ray: &'a [Frac],
}

// It ends past the last end, which is before the last value, and what comes after it is proved by a ray.
fn check_past_infeasible(
    alloc: Global,
    run: &SheetRun<'_, '_>,
    last: Frac,
    shift: &[Frac],
    past: &PastRay<'_>,
) -> Result<(), Stop>
    requires asked { IsAskedOf run.now.sheet run.now.request.now }
    requires shifts { length shift.now ≡ run.now.sheet.lp.now.matrix.rows }
    requires places { length past.now.ray.now ≡ size run.now.sheet.lp.now.matrix }
    ensures { Judges
        (past_test run.now.request.now.to last past.now.value
        (infeasible_past checker_of_128_bits (sheet_of run.now) (changing_in run.now) shift.now
        past.now.value (value_at past.now.ray.now))) result }
{
    let value = past.value;
    ask(is_equal(value, last))?;
    ask(value.is_less(run.request.to))?;
    check_infeasible_past(alloc, run, shift, value, past.ray)
}

// A run of the right-hand side may close so.
fn check_infeasible(
    alloc: Global,
    run: &SheetRun<'_, '_>,
    last: Frac,
    value: Frac,
    ray: &[Frac],
) -> Result<(), Stop>
    requires asked { IsAskedOf run.now.sheet run.now.request.now }
    requires places { length ray.now ≡ size run.now.sheet.lp.now.matrix }
    ensures { Judges (infeasible_test checker_of_128_bits (sheet_of run.now) (changing_in run.now)
        run.now.request.now.to last value ray.now) result }
{
    match &run.request.change {
        Change::Row(_) => Err(Stop::Wrong),
        Change::Set(shift) => {
            let past = PastRay { value, ray };
            check_past_infeasible(alloc, run, last, shift, &past)
        }
    }
}

/// A run of the objective closes so, in the numbers of the listing.
pub fn close_unbounded(
    alloc: Global,
    run: &SheetRun<'_, '_>,
    last: Frac,
    value: &Number<'_>,
    pair: &Pair<'_>,
) -> Result<(), Stop>
    requires serves { ServesChange run.now.sheet.problem.now run.now.sheet.lp.now
        run.now.request.now.name run.now.request.now.change }
    requires pair { IsPairOf run.now.sheet.lp.now pair.now }
    ensures { Judges (unbounded_test checker_of_128_bits (sheet_of run.now) (changing_in run.now)
        run.now.request.now.to last value.now pair.now.point.items pair.now.direction.items)
        result }
{
    let value = fraction(value)?;
    let made = pair_of(alloc, pair)?;
    check_unbounded(run, last, value, &made)
}

/// A run of the right-hand side closes so, in the numbers of the listing.
pub fn close_infeasible(
    alloc: Global,
    run: &SheetRun<'_, '_>,
    last: Frac,
    value: &Number<'_>,
    ray: &[Number<'_>],
) -> Result<(), Stop>
    requires asked { IsAskedOf run.now.sheet run.now.request.now }
    requires places { length ray.now ≡ size run.now.sheet.lp.now.matrix }
    ensures { Judges (infeasible_test checker_of_128_bits (sheet_of run.now) (changing_in run.now)
        run.now.request.now.to last value.now ray.now) result }
{
    let value = fraction(value)?;
    let made = fractions(alloc, ray)?;
    check_infeasible(alloc, run, last, value, &made)
}

/// It ends at its last value, in the numbers of the listing.
pub fn close_at(value: &Number<'_>, last: Frac, max: Frac) -> Result<(), Stop>
    ensures { Judges
        (in_turn (asked (eq_ℚ value.now last) ∷ asked (eq_ℚ value.now max) ∷ [])) result }
{
    let value = fraction(value)?;
    check_end_at(value, last, max)
}
