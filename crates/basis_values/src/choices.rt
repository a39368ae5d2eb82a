//! The least-numbered variables that the path chooses.

ghost use Rattle.std.specs.Prelude.{◌≡◌, ◌&&◌, ◌≤◌, length};
ghost use Rattle.exact_values.specs.Rational.{ℚ};
ghost use Rattle.exact_values.specs.Tests.{lt_ℚ};
ghost use Rattle.lp_definitions.specs.LinearProgram.{size, value_at, for_min, IsVariable};
ghost use Rattle.lp_definitions.specs.Basis.{basics_of, is_in};
ghost use Rattle.simplex_definitions.specs.Moves.{least, is_crossed, is_below, is_above, is_outside, lowers, entering, signed};
ghost use Rattle.basis_values.specs.Motions.{motion};
ghost use Rattle.basis_values.specs.Prices.{worth_by};

use crate::wants::want_of;
use frac128::Frac;
use lp_model::{Basis, Lp, Ratio, Sense, Status};

/// The value as it counts upward or downward.
pub fn counted(value: Frac, up: bool) -> Frac
    ensures { result ≡ signed up value }
{
    if up { value } else { value.neg() }
}

/// The least-numbered variable whose lower limit is above its upper one.
pub fn crossed(lp: &Lp) -> Option<u32>
    ensures { result ≡ least lp.now (is_crossed lp.now) }
{
    for k in 0..lp.number_of_variables() {
        if lp.is_crossed(k + 1) {
            return Some(k + 1);
        }
    }
    None
}

/// Whether `k` lies below its lower limit.
pub fn lies_below(lp: &Lp, point: &[Ratio], k: u32) -> bool
    requires variable { IsVariable lp.now.matrix k }
    requires places { length point.now ≡ size lp.now.matrix }
    ensures { result ≡ is_below lp.now (value_at point.now) k }
{
    match lp.lower_limit(k) {
        Some(lower) => point[k as usize - 1].is_below(lower),
        None => false,
    }
}

/// Whether `k` lies above its upper limit.
fn lies_above(lp: &Lp, point: &[Ratio], k: u32) -> bool
    requires variable { IsVariable lp.now.matrix k }
    requires places { length point.now ≡ size lp.now.matrix }
    ensures { result ≡ is_above lp.now (value_at point.now) k }
{
    match lp.upper_limit(k) {
        Some(upper) => point[k as usize - 1].is_above(upper),
        None => false,
    }
}

/// Whether `k` is basic.
pub fn stands_basic(basis: &Basis, k: u32) -> bool
    requires low { 1 ≤ k }
    requires high { k ≤ length basis.now }
    ensures { result ≡ is_in (basics_of basis.now) k }
{
    basis.status(k) == Status::Bs
}

/// Whether `k` is basic, and outside its limits.
fn lies_outside(lp: &Lp, basis: &Basis, point: &[Ratio], k: u32) -> bool
    requires variable { IsVariable lp.now.matrix k }
    requires counted { length basis.now ≡ size lp.now.matrix }
    requires places { length point.now ≡ size lp.now.matrix }
    ensures { result ≡ (is_in (basics_of basis.now) k && is_outside lp.now (value_at point.now) k) }
{
    stands_basic(basis, k) && (lies_below(lp, point, k) || lies_above(lp, point, k))
}

/// The least-numbered basic outside its limits.
pub fn outside(lp: &Lp, basis: &Basis, point: &[Ratio]) -> Option<u32>
    requires counted { length basis.now ≡ size lp.now.matrix }
    requires places { length point.now ≡ size lp.now.matrix }
    ensures { result ≡ least lp.now (λ k. is_in (basics_of basis.now) k && is_outside lp.now
        (value_at point.now) k) }
{
    for k in 0..lp.number_of_variables() {
        if lies_outside(lp, basis, point, k + 1) {
            return Some(k + 1);
        }
    }
    None
}

/// Whether `k` may move so as to lower a quantity that has this rate at it.
pub fn may_lower(lp: &Lp, basis: &Basis, rate: Frac, k: u32) -> bool
    requires variable { IsVariable lp.now.matrix k }
    requires counted { length basis.now ≡ size lp.now.matrix }
    ensures { result ≡ lowers lp.now basis.now (λ _. rate) k }
{
    want_of(lp, basis, k).is_met(true, rate)
}

/// The least-numbered nonbasic that may move so as to lower a quantity with these rates, or, where they don't count up, one with
/// the opposite rates.
pub fn entering_variable(lp: &Lp, basis: &Basis, rates: &[Frac], up: bool) -> Option<u32>
    requires counted { length basis.now ≡ size lp.now.matrix }
    requires places { length rates.now ≡ size lp.now.matrix }
    ensures { result ≡ entering lp.now basis.now (motion (value_at rates.now) up) }
{
    for k in 0..lp.number_of_variables() {
        let rate = rates[k as usize];
        if may_lower(lp, basis, counted(rate, up), k + 1) {
            return Some(k + 1);
        }
    }
    None
}

/// Whether a smaller objective is better.
pub fn is_minimized(lp: &Lp) -> bool
    ensures { (v : ℚ) → for_min lp.now.sense v ≡ signed result v }
{
    match lp.sense {
        Sense::Min => true,
        Sense::Max => false,
    }
}

/// The least-numbered nonbasic at which the basis's price is wrong: it may move so as to improve the objective.
pub fn wrong_price(lp: &Lp, basis: &Basis, prices: &[Frac]) -> Option<u32>
    requires counted { length basis.now ≡ size lp.now.matrix }
    requires places { length prices.now ≡ size lp.now.matrix }
    ensures { result ≡ entering lp.now basis.now (worth_by lp.now (value_at prices.now)) }
{
    entering_variable(lp, basis, prices, is_minimized(lp))
}
