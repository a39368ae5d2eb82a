//! One step: a basis goes over to the next one, and its point with it.

ghost use Rattle.std.specs.Prelude.{◌≡◌, ◌≢◌, ◌||◌, false, length, OnOk, OnErr, IfOk, IfErr, IfSome, IsSome, IsTrue};
ghost use Rattle.exact_values.specs.Rational.{zero_ℚ, ◌+ℚ◌, ◌*ℚ◌};
ghost use Rattle.lp_definitions.specs.LinearProgram.{size, value_at, IsVariable};
ghost use Rattle.lp_definitions.specs.Basis.{basics_of, IsNonbasic, IsPointOf, IsDirectionOf};
ghost use Rattle.simplex_definitions.specs.Path.{after};
ghost use Rattle.simplex_definitions.specs.Formulas.{limit_numbered, number_of_limit};
ghost use Rattle.basis_values.specs.Calls.{IsAtBasis, MovesTo};
ghost use Rattle.bounded_primal.specs.KeptPoints.{all_kept, all_needed, has_limit as is_limited, AgreesWithPoint};
ghost use Rattle.bounded_primal.specs.Moves.{StepsFromPoint, move_by, return_by, StepOverflow};
ghost use Rattle.bounded_primal.specs.Steps.{IsMoved, IsMovedAtLimits, MovedRefused, SomeMovedRefused, ReturnRefused, step_formula};

use crate::kept::Kept;
use crate::moves::{BlockingVariable, Move};
use crate::scaled_step::ScaledStep;
use basis_values::{Formula, plus_product, reach};
use frac128::Frac;
use lp_model::{Basis, Evidence, Lp, Rates, Ratio, SparseVector, Status, Stop};

/// Formula 8 or 9 of the variable `i`, where `q` moves until `p` stops it.
fn formula(number: u8, p: u32, q: u32, i: u32) -> Formula
    ensures { result ≡ step_formula number p q i }
{
    Formula {
        number,
        p,
        q,
        i,
        j: 0,
        term: 0,
        theta: Frac::whole(0),
    }
}

/// The value of what has this rate, after a step, where the plain operations make it. Nothing is added to 0.
#[inline(always)]
fn quickly_moved(value: Frac, rate: Frac, step: Frac) -> Option<Frac>
    ensures { IfSome result (λ moved. moved ≡ value +ℚ step *ℚ rate) }
{
    let product = step.mul(rate).ok()?;
    if value.is_zero() {
        return Some(product);
    }
    value.add(product).ok()
}

/// The value of `i`, which has this rate, after the step `by` of `q`, by the plain operations.
#[inline(always)]
fn plainly_moved(
    value: Frac,
    rate: Frac,
    by: &BlockingVariable,
    q: u32,
    i: u32,
) -> Result<Frac, Evidence>
    ensures value { IfOk result (λ moved. moved ≡ value +ℚ by.now.step *ℚ rate) }
    ensures refused { IfErr result (MovedRefused by.now.step rate value by.now.p q i) }
    ensures needed { OnErr result (rate ≢ zero_ℚ) }
{
    let product = formula(8, by.p, q, i).product(by.step, rate)?;
    formula(9, by.p, q, i).sum(value, product)
}

/// Whether `k` has a limit.
fn has_limit(lp: &Lp, k: u32) -> bool
    requires { IsVariable lp.now.matrix k }
    ensures { result ≡ is_limited lp.now k }
{
    lp.lower_limit(k).is_some() || lp.upper_limit(k).is_some()
}

/// Whether a step needs the value of `k`: that of each variable where all are needed, and else of those with a limit.
fn is_needed(lp: &Lp, kept: Kept, k: u32) -> bool
    requires { IsVariable lp.now.matrix k }
    ensures { result ≡ (all_needed kept || is_limited lp.now k) }
{
    kept.needs_all() || has_limit(lp, k)
}

/// Whether a step leaves `k` out, where so much is `still` kept: a value that it doesn't need, when another one is given up.
#[inline(always)]
fn is_left_out(lp: &Lp, kept: Kept, still: Kept, k: u32) -> bool
    requires { IsVariable lp.now.matrix k }
    ensures given_up { IsTrue result → all_kept still ≡ false }
    ensures needless { IsTrue result → (all_needed kept || is_limited lp.now k) ≡ false }
{
    !still.has_all() && !is_needed(lp, kept, k)
}

/// The value of `i` after the step.
#[inline(always)]
fn moved(
    value: &Ratio,
    rate: &Ratio,
    step: &Move<'_>,
    scaled: &mut ScaledStep,
    i: u32,
) -> Result<Ratio, Evidence>
    requires { scaled.old ≡ step.now.by.now.step }
    ensures same { scaled.new ≡ scaled.old }
    ensures value { IfOk result (λ moved. moved ≡ value.now +ℚ step.now.by.now.step *ℚ rate.now) }
    ensures refused { IfErr result (MovedRefused step.now.by.now.step rate.now value.now
        step.now.by.now.p step.now.q i) }
    ensures moves { OnErr result (rate.now ≢ zero_ℚ) }
{
    if let Some(moved) = scaled.moved(value, rate) {
        return Ok(moved);
    }
    let (value, rate) = (value.reduced(), rate.reduced());
    if let Some(moved) = quickly_moved(value, rate, step.by.step) {
        return Ok(Ratio::of(moved));
    }
    match plainly_moved(value, rate, step.by, step.q, i) {
        Ok(moved) => Ok(Ratio::of(moved)),
        Err(evidence) => match plus_product(value, step.by.step, rate) {
            Some(moved) => Ok(Ratio::of(moved)),
            None => Err(evidence),
        },
    }
}

/// Moves the values of the point that are `kept` by the step, and answers which are still kept after it: where not all are
/// needed, a refused one of a variable without limits stays as it was. What has the rate 0 stays as it is, and isn't looked at; a step
/// of 0 moves nothing.
fn move_point(lp: &Lp, step: &Move<'_>, point: &mut [Ratio], kept: Kept) -> Result<Kept, Evidence>
    requires direction_places { length step.now.direction.now ≡ size lp.now.matrix }
    requires point_places { length point.old ≡ size lp.now.matrix }
    ensures limited { OnOk result
        (IsMovedAtLimits lp.now step.now.by.now.step (value_at step.now.direction.now)
        (value_at point.old) (size lp.now.matrix) (value_at point.new)) }
    ensures moved { IfOk result (λ still. IsTrue (all_kept still) → IsMoved step.now.by.now.step
        (value_at step.now.direction.now) (value_at point.old)
        (size lp.now.matrix) (value_at point.new)) }
    ensures kept { IfOk result (λ still. IsTrue (all_kept still) → IsTrue (all_kept kept)) }
    ensures needed { IfOk result (λ still. IsTrue (all_needed kept) → IsTrue (all_kept still)) }
    ensures refused { IfErr result (SomeMovedRefused lp.now (all_needed kept) step.now.by.now
        (value_at step.now.direction.now) (value_at point.old) step.now.q) }
{
    if step.by.step.is_zero() {
        return Ok(kept);
    }
    let mut still = kept;
    let mut scaled = ScaledStep::new(step.by.step);
    let direction = step.direction.values();
    let moving = step.direction.nonzero();
    for k in moving {
        if is_left_out(lp, kept, still, *k) {
            continue;
        }
        let place = *k as usize - 1;
        let next = match moved(&point[place], &direction[place], step, &mut scaled, *k) {
            Ok(next) => next,
            Err(evidence) => {
                if is_needed(lp, kept, *k) {
                    return Err(evidence);
                }
                still = Kept::Limited;
                continue;
            }
        };
        point[place] = next;
    }
    Ok(still)
}

/// The limit of `k` that has this status.
fn limit_at(lp: &Lp, k: u32, to: Status) -> Option<Frac>
    requires { IsVariable lp.now.matrix k }
    ensures { result ≡ limit_numbered lp.now k (number_of_limit to) }
{
    match to {
        Status::Bs | Status::Fr => None,
        Status::Ll => lp.lower_limit(k),
        Status::Ul => lp.upper_limit(k),
    }
}

/// The number of a status's limit.
fn number_of(to: Status) -> u32
    ensures { result ≡ number_of_limit to }
{
    match to {
        Status::Bs | Status::Fr => 0,
        Status::Ll => 1,
        Status::Ul => 2,
    }
}

/// The move of `q` that brings `p` to the limit of the status `to`.
pub fn returning(
    lp: &Lp,
    point: &[Ratio],
    direction: &[Ratio],
    q: u32,
    p: u32,
    to: Status,
) -> Result<BlockingVariable, Evidence>
    requires variable { IsVariable lp.now.matrix p }
    requires point_places { length point.now ≡ size lp.now.matrix }
    requires direction_places { length direction.now ≡ size lp.now.matrix }
    requires limit { IsSome (limit_numbered lp.now p (number_of_limit to)) }
    requires moves { value_at direction.now p ≢ zero_ℚ }
    ensures blocking_variable { IfOk result
        (λ by. by ≡ return_by lp.now (value_at point.now)
        (value_at direction.now) p to) }
    ensures refused { IfErr result (ReturnRefused lp.now (value_at point.now)
        (value_at direction.now) q p to) }
{
    let number = number_of(to);
    let limit = limit_at(lp, p, to).unwrap_or(Frac::whole(0));
    let value = point[p as usize - 1].reduced();
    let rate = direction[p as usize - 1].reduced();
    let distance = reach::formula(6, 0, p, number).difference(limit, value)?;
    let step = reach::formula(7, q, p, number).quotient(distance, rate)?;
    Ok(BlockingVariable { p, step, to })
}

/// Takes the basis and the rates over the step. Where `q` itself stops, it changes its limit, and no exchange is made.
fn change_basis<R: Rates>(
    lp: &Lp,
    basis: &mut Basis,
    rates: &mut R,
    step: &Move<'_>,
) -> Result<(), Stop>
    requires rates { IsAtBasis (R.state rates.old) lp.now basis.old }
    requires nonbasic { IsNonbasic lp.now.matrix (basics_of basis.old) step.now.q }
    requires direction { IsDirectionOf lp.now.matrix (basics_of basis.old) step.now.q
        (value_at step.now.direction.now) }
    requires direction_places { length step.now.direction.now ≡ size lp.now.matrix }
    requires step { StepsFromPoint lp.now basis.old
        (value_at step.now.direction.now) step.now.q step.now.by.now }
    requires moves { value_at step.now.direction.now step.now.by.now.p ≢ zero_ℚ }
    ensures basis { OnOk result (basis.new ≡ after basis.old (move_by step.now.q step.now.by.now)) }
    ensures unchanged { OnErr result (basis.new ≡ basis.old) }
    ensures rates { IsAtBasis (R.state rates.new) lp.now basis.new }
    ensures waypoints { MovesTo (R.state rates.old) (R.state rates.new) lp.now basis.old basis.new }
    ensures overflow { StepOverflow result lp.now basis.old step.now.q step.now.by.now
        (R.state rates.old) (R.state rates.new) }
{
    let Move { q, by, direction } = *step;
    if by.p == q {
        basis.flip(q, by.to);
        return Ok(());
    }
    rates.exchange_along(by.p, q, direction)?;
    basis.replace(by.p, q, by.to);
    Ok(())
}

/// Makes the step: the basis, the rates and the values of the point that are `kept` go over to the next basis. Where `q` itself stops,
/// it changes its limit, and no exchange is made. Answers which values are still kept after it: where not all are needed, a refused
/// one of a variable without limits is given up. After a Stop the basis and the basics are as before, and of `point` nothing is
/// promised.
pub fn step_over<R: Rates>(
    lp: &Lp,
    basis: &mut Basis,
    rates: &mut R,
    point: &mut [Ratio],
    step: &Move<'_>,
    kept: Kept,
) -> Result<Kept, Stop>
    requires rates { IsAtBasis (R.state rates.old) lp.now basis.old }
    requires point_places { length point.old ≡ size lp.now.matrix }
    requires direction_places { length step.now.direction.now ≡ size lp.now.matrix }
    requires nonbasic { IsNonbasic lp.now.matrix (basics_of basis.old) step.now.q }
    requires point { AgreesWithPoint lp.now basis.old (value_at point.old) }
    requires kept { IsTrue (all_kept kept) → IsPointOf lp.now basis.old (value_at point.old) }
    requires direction { IsDirectionOf lp.now.matrix (basics_of basis.old) step.now.q
        (value_at step.now.direction.now) }
    requires moves { value_at step.now.direction.now step.now.by.now.p ≢ zero_ℚ }
    requires step { StepsFromPoint lp.now basis.old
        (value_at step.now.direction.now) step.now.q step.now.by.now }
    ensures basis { OnOk result (basis.new ≡ after basis.old (move_by step.now.q step.now.by.now)) }
    ensures point { OnOk result (AgreesWithPoint lp.now basis.new (value_at point.new)) }
    ensures kept { IfOk result (λ still. IsTrue (all_kept still) →
        IsPointOf lp.now basis.new (value_at point.new)) }
    ensures needed { IfOk result (λ still. IsTrue (all_needed kept) → IsTrue (all_kept still)) }
    ensures unchanged { OnErr result (basis.new ≡ basis.old) }
    ensures rates { IsAtBasis (R.state rates.new) lp.now basis.new }
    ensures waypoints { MovesTo (R.state rates.old) (R.state rates.new) lp.now basis.old basis.new }
    ensures overflow { StepOverflow result lp.now basis.old step.now.q step.now.by.now
        (R.state rates.old) (R.state rates.new) }
{
    let still = match move_point(lp, step, point, kept) {
        Ok(still) => still,
        Err(evidence) => return Err(Stop::Overflow(evidence)),
    };
    change_basis(lp, basis, rates, step)?;
    Ok(still)
}
