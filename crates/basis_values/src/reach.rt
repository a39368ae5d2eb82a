//! How long a motion lasts until a variable reaches a limit.

ghost use Rattle.std.specs.Prelude.{◌≡◌, length, IfOk, IfErr, IfSome, IsTrue};
ghost use Rattle.exact_values.specs.Rational.{◌-ℚ◌, sign_ℚ};
ghost use Rattle.lp_definitions.specs.LinearProgram.{size, value_at, IsVariable};
ghost use Rattle.simplex_definitions.specs.Moves.{step_length, signed};
ghost use Rattle.basis_values.specs.Motions.{motion};
ghost use Rattle.basis_values.specs.Reach.{StepLengthRefused, IsAhead, Yields, sooner, reach_formula};

use crate::choices::counted;
use crate::formula::{Formula, plus_product};
use crate::word_terms::lasts;
use frac128::{Frac, product, sum};
use lp_model::{Evidence, Lp, Ratio};

/// A variable that reaches a limit after this length.
#[derive(Clone, Copy)]
pub struct Reach {
    pub p: u32,
    pub length: Frac,
}

/// The limit ahead of a variable: the number `term` is 1 for the lower one and 2 for the upper one.
#[derive(Clone, Copy)]
struct Ahead {
    term: u32,
    limit: Frac,
}

/// Formula 6 or 7 of the variable `k` and its limit of this number.
pub fn formula(number: u8, q: u32, k: u32, term: u32) -> Formula
    ensures { result ≡ reach_formula number q k term }
{
    Formula {
        number,
        p: 0,
        q,
        i: k,
        j: 0,
        term,
        theta: Frac::whole(0),
    }
}

/// Formula 6: the limit of the variable `k` with this number, less the variable's value.
pub fn distance_formula(k: u32, term: u32) -> Formula
    ensures { result ≡ reach_formula 6 0 k term }
{
    formula(6, 0, k, term)
}

/// Formula 7: such a distance over the rate of `k`, where `q` moves.
pub fn length_formula(q: u32, k: u32, term: u32) -> Formula
    ensures { result ≡ reach_formula 7 q k term }
{
    formula(7, q, k, term)
}

/// -1, 0 or 1, as the number, counted upward or downward, is below, at or above 0.
#[inline(always)]
fn counted_sign(value: &Ratio, up: bool) -> i8
    ensures { result ≡ sign_ℚ (signed up value.now) }
{
    if up { value.sign() } else { -value.sign() }
}

/// The limit ahead of `k`, which moves at this rate, counted upward or downward.
#[inline(always)]
fn limit_before(lp: &Lp, rate: &Ratio, up: bool, k: u32) -> Option<Ahead>
    requires { IsVariable lp.now.matrix k }
    ensures { IsAhead lp.now (λ _. signed up rate.now) k result }
{
    let sign = counted_sign(rate, up);
    if sign > 0 {
        let upper = lp.upper_limit(k)?;
        Some(Ahead {
            term: 2,
            limit: upper,
        })
    } else if sign < 0 {
        let lower = lp.lower_limit(k)?;
        Some(Ahead {
            term: 1,
            limit: lower,
        })
    } else {
        None
    }
}

/// How long `q` moves until `k` reaches the limit ahead of it.
pub fn length_to(
    lp: &Lp,
    point: &[Ratio],
    direction: &[Ratio],
    up: bool,
    q: u32,
    k: u32,
) -> Result<Option<Frac>, Evidence>
    requires variable { IsVariable lp.now.matrix k }
    requires point_places { length point.now ≡ size lp.now.matrix }
    requires direction_places { length direction.now ≡ size lp.now.matrix }
    ensures length { IfOk result (λ found. found ≡ step_length lp.now (value_at point.now)
        (motion (value_at direction.now) up) k) }
    ensures refused { IfErr result (StepLengthRefused lp.now (value_at point.now)
        (value_at direction.now) up q k) }
{
    let rate = &direction[k as usize - 1];
    let Some(ahead) = limit_before(lp, rate, up, k) else {
        return Ok(None);
    };
    let rate = rate.reduced();
    let value = point[k as usize - 1].reduced();
    let distance = formula(6, 0, k, ahead.term).difference(ahead.limit, value)?;
    let change = formula(7, q, k, ahead.term).quotient(distance, rate)?;
    Ok(Some(counted(change, up)))
}

/// A whole number less a value, with no greatest common divisor. None where the limit isn't a whole number, or a number doesn't fit.
#[inline(always)]
fn whole_less(limit: Frac, value: &Ratio) -> Option<Ratio>
    ensures { IfSome result (λ distance. distance ≡ limit -ℚ value.now) }
{
    if limit.den() != 1 {
        return None;
    }
    let (num, den) = value.terms();
    let scaled = product(limit.num(), den)?;
    let left = sum(scaled, -num)?;
    Some(Ratio::new(left, den))
}

/// A limit less a value. None where a number doesn't fit.
#[inline(always)]
fn distance_to(limit: Frac, value: &Ratio) -> Option<Ratio>
    ensures { IfSome result (λ distance. distance ≡ limit -ℚ value.now) }
{
    if limit.is_zero() {
        return Some(value.neg());
    }
    if let Some(distance) = whole_less(limit, value) {
        return Some(distance);
    }
    let distance = limit.sub(value.reduced()).ok()?;
    Some(Ratio::of(distance))
}

/// The number, or its opposite where it doesn't count upward.
#[inline(always)]
fn counted_ratio(value: &Ratio, up: bool) -> Ratio
    ensures { result ≡ signed up value.now }
{
    if up { value.copy() } else { value.neg() }
}

/// The number as `up` counts it, counted upward or downward.
#[inline(always)]
fn counted_twice(value: &Ratio, up: bool, rises: bool) -> Ratio
    ensures { result ≡ signed rises (signed up value.now) }
{
    if rises {
        counted_ratio(value, up)
    } else {
        counted_ratio(value, !up)
    }
}

/// Whether it is seen without a quotient that `k` is no nearer than what is nearest so far.
pub fn is_no_nearer(
    lp: &Lp,
    point: &[Ratio],
    direction: &[Ratio],
    up: bool,
    nearest: &Option<Reach>,
    k: u32,
) -> bool
    requires variable { IsVariable lp.now.matrix k }
    requires point_places { length point.now ≡ size lp.now.matrix }
    requires direction_places { length direction.now ≡ size lp.now.matrix }
    ensures { IsTrue result → sooner nearest.now (step_length lp.now (value_at point.now)
        (motion (value_at direction.now) up) k) k ≡ nearest.now }
{
    let rate = &direction[k as usize - 1];
    let Some(ahead) = limit_before(lp, rate, up, k) else {
        return true;
    };
    let Some(nearest) = nearest else {
        return false;
    };
    let Some(distance) = distance_to(ahead.limit, &point[k as usize - 1]) else {
        return false;
    };
    let rises = ahead.term == 2;
    let distance = counted_ratio(&distance, rises);
    let speed = counted_twice(rate, up, rises);
    lasts(&distance, &speed, nearest.length).unwrap_or(false)
}

/// What is nearer: what was nearest so far, or `k` at this length.
#[inline(always)]
pub fn nearer(nearest: Option<Reach>, length: Option<Frac>, k: u32) -> Option<Reach>
    ensures { result ≡ sooner nearest length k }
{
    match (nearest, length) {
        (None, length) => length.map(|length| Reach { p: k, length }),
        (Some(nearest), None) => Some(nearest),
        (Some(nearest), Some(length)) => {
            if length.is_less(nearest.length) {
                Some(Reach { p: k, length })
            } else {
                Some(nearest)
            }
        }
    }
}

/// Whether `k` lets `first` stop the move: after the length of `first` it hasn't passed the limit ahead of it, nor reached it where its
/// number is the smaller. This follows from its place there, so no length of its own is needed; and nothing follows where the place
/// can't be computed.
pub fn yields(
    lp: &Lp,
    point: &[Ratio],
    direction: &[Ratio],
    up: bool,
    first: &Reach,
    k: u32,
) -> bool
    requires variable { IsVariable lp.now.matrix k }
    requires point_places { length point.now ≡ size lp.now.matrix }
    requires direction_places { length direction.now ≡ size lp.now.matrix }
    ensures { IsTrue result → Yields (step_length lp.now (value_at point.now)
        (motion (value_at direction.now) up)) first.now k }
{
    let rate = &direction[k as usize - 1];
    let Some(ahead) = limit_before(lp, rate, up, k) else {
        return true;
    };
    let speed = counted(rate.reduced(), up);
    let value = point[k as usize - 1].reduced();
    let Some(place) = plus_product(value, first.length, speed) else {
        return false;
    };
    let rises = Frac::whole(0).is_less(speed);
    let (place, limit) = (counted(place, rises), counted(ahead.limit, rises));
    if k < first.p {
        place.is_less(limit)
    } else {
        !limit.is_less(place)
    }
}
