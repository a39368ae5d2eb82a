//! Intervals of costs, multiples of rows and limits.

ghost use Rattle.std.specs.Prelude.{◌≡◌, ◌↔◌, IfSome, IsSome, length, IfOk, IfErr, option_map};
ghost use Rattle.exact_values.specs.Rational.{ℚ, ◌+ℚ◌, ◌-ℚ◌};
ghost use Rattle.frac128.specs.declared.Op.TheVariants.{Add, Sub};
ghost use Rattle.affine_laws.specs.Ends.{IsBetweenEnds};
ghost use Rattle.lp_definitions.specs.LinearProgram.{size, IsVariable};
ghost use Rattle.basis_values.specs.Formulas.{IsRefusal};
ghost use Rattle.ranging.specs.Formulas.{end_formula};
ghost use Rattle.ranging.specs.Intervals.{IsAtLeast, IsAtMost, IsIn, less_end, taken_from, opposite_end, opposite, IsOwn, DifferenceRefused, SumRefused};

use affine_laws::{Endpoint, Ends};
use basis_values::Formula;
use frac128::Frac;
use lp_model::{Basis, Evidence, Interval, Lp, Status};

/// Formula 15 of an end that the rate of the basic `i` at the nonbasic `j` makes. `i` is 0 where the end is a price itself; `term` is the
/// number of the limit of `i` that makes the end, and 0 where a price does.
fn formula(i: u32, j: u32, term: u32) -> Formula
    ensures { result ≡ end_formula i j term }
{
    Formula::of_rate(15, i, j, term)
}

/// The cost, less the end. `i` is the basic whose rate makes the end, or 0.
fn cost_less(cost: Frac, end: Option<Endpoint>, i: u32) -> Result<Option<Frac>, Evidence>
    ensures value { IfOk result (λ now. now ≡ less_end cost end) }
    ensures refused { IfErr result
        (λ e. IfSome end (λ d. IsRefusal (end_formula i d.by 0) Sub cost d.value e)) }
    ensures there { IfErr result (λ e. IsSome end) }
{
    let Some(there) = end else {
        return Ok(None);
    };
    let now = formula(i, there.by, 0).difference(cost, there.value)?;
    Ok(Some(now))
}

/// The interval of a cost.
pub fn cost_interval(cost: Frac, ends: &Ends, i: u32) -> Result<Interval, Evidence>
    ensures interval { IfOk result (λ interval. interval ≡ taken_from cost ends.now) }
    ensures refused { IfErr result (DifferenceRefused cost ends.now i) }
{
    let low = cost_less(cost, ends.high, i)?;
    let high = cost_less(cost, ends.low, i)?;
    Ok(Interval { low, high })
}

/// The opposite of an end.
fn opposite_of(end: Option<Endpoint>) -> Option<Frac>
    ensures { result ≡ opposite_end end }
{
    match end {
        None => None,
        Some(there) => Some(there.value.neg()),
    }
}

/// The interval of a row's multiple.
pub fn row_interval(ends: &Ends) -> Interval
    ensures { result ≡ opposite ends.now }
{
    Interval {
        low: opposite_of(ends.high),
        high: opposite_of(ends.low),
    }
}

/// The limit at which `k` stands, moved to the end.
fn limit_plus(stands: Frac, end: Option<Endpoint>, k: u32) -> Result<Option<Frac>, Evidence>
    ensures value { IfOk result (λ now. now ≡ option_map (λ e. stands +ℚ e.value) end) }
    ensures refused { IfErr result
        (λ e. IfSome end (λ d. IsRefusal (end_formula d.by k d.which) Add stands d.value e)) }
    ensures there { IfErr result (λ e. IsSome end) }
{
    let Some(there) = end else {
        return Ok(None);
    };
    let now = formula(there.by, k, there.which).sum(stands, there.value)?;
    Ok(Some(now))
}

/// The least of two upper ends, of which either may not be there.
fn least(first: Option<Frac>, second: Option<Frac>) -> Option<Frac>
    ensures { (t : ℚ) → IsAtMost result t ↔ (IsAtMost first t × IsAtMost second t) }
{
    let Some(one) = first else {
        return second;
    };
    let Some(other) = second else {
        return first;
    };
    if other.is_less(one) {
        return second;
    }
    first
}

/// The greatest of two lower ends, of which either may not be there.
fn greatest(first: Option<Frac>, second: Option<Frac>) -> Option<Frac>
    ensures { (t : ℚ) → IsAtLeast result t ↔ (IsAtLeast first t × IsAtLeast second t) }
{
    let Some(one) = first else {
        return second;
    };
    let Some(other) = second else {
        return first;
    };
    if one.is_less(other) {
        return second;
    }
    first
}

/// The interval up to the limit of `k` at which it doesn't stand, if it isn't fixed.
fn up_to_other(lp: &Lp, basis: &Basis, k: u32, interval: Interval) -> Interval
    requires variable { IsVariable lp.now.matrix k }
    requires counted { length basis.now ≡ size lp.now.matrix }
    ensures { (t : ℚ) → IsIn result t ↔ (IsIn interval t × IsOwn lp.now basis.now k t) }
{
    if lp.is_fixed(k) {
        return interval;
    }
    match basis.status(k) {
        Status::Ll => Interval {
            low: interval.low,
            high: least(interval.high, lp.upper_limit(k)),
        },
        Status::Ul => Interval {
            low: greatest(interval.low, lp.lower_limit(k)),
            high: interval.high,
        },
        Status::Bs | Status::Fr => interval,
    }
}

/// The interval of the limit at which `k` stands.
pub fn limit_interval(
    lp: &Lp,
    basis: &Basis,
    stands: Frac,
    k: u32,
    ends: &Ends,
) -> Result<Interval, Evidence>
    requires variable { IsVariable lp.now.matrix k }
    requires counted { length basis.now ≡ size lp.now.matrix }
    ensures interval { IfOk result (λ interval. (t : ℚ) → IsIn interval t ↔
        (IsBetweenEnds ends.now (t -ℚ stands) × IsOwn lp.now basis.now k t)) }
    ensures refused { IfErr result (SumRefused stands ends.now k) }
{
    let low = limit_plus(stands, ends.low, k)?;
    let high = limit_plus(stands, ends.high, k)?;
    Ok(up_to_other(lp, basis, k, Interval { low, high }))
}
