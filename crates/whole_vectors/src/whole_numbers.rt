//! Numbers over one denominator that are whole numbers. Where a number isn't, or is too large, the answer is None.

ghost use Rattle.std.specs.Prelude.{◌≡◌, ◌≢◌, ◌≤◌, ◌^◌, ◌+ℤ◌, ◌*ℤ◌, ◌≤ℤ◌, pos, unsigned_abs, All, length, IfSome};
ghost use Rattle.std.specs.Option.{SomeIff};
ghost use Rattle.exact_values.specs.Rational.{whole, zero_ℚ, ◌+ℚ◌, ◌*ℚ◌, ◌/ℚ◌};
ghost use Rattle.frac128.specs.Terms.{Fits};
ghost use Rattle.lp_definitions.specs.LinearProgram.{value_at};
ghost use Rattle.whole_vectors.specs.Words.{wholes};

use crate::word_vectors::word_times;
use crate::{quotient, word_quotient};
use frac128::Frac;

/// The whole number that a fraction is, where it is one.
#[inline(always)]
pub fn whole_number(x: Frac) -> Option<i128>
    ensures value { IfSome result (λ n. whole n ≡ x) }
    ensures fits { IfSome result Fits }
{
    if x.den() != 1 {
        return None;
    }
    Some(x.num())
}

/// The number at the variable `k`.
#[inline(always)]
pub fn whole_at(numbers: &[i128], k: u32) -> i128
    requires low { 1 ≤ k }
    requires high { k ≤ length numbers.now }
    requires fit { All Fits numbers.now }
    ensures value { whole result ≡ value_at (wholes numbers.now) k }
    ensures fits { Fits result }
{
    numbers[k as usize - 1]
}

/// How often a number has a factor, where it is a multiple of it.
#[inline(always)]
pub fn whole_multiple(n: i128, factor: i128) -> Option<i128>
    requires at_least_one { pos 1 ≤ℤ factor }
    requires fits { Fits n }
    ensures value { IfSome result (λ times. n ≡ times *ℤ factor) }
    ensures fits { IfSome result Fits }
{
    let times = match (i64::try_from(n), i64::try_from(factor)) {
        (Ok(n), Ok(factor)) => (n / factor) as i128,
        _ => n / factor,
    };
    if frac128::product(times, factor)? == n {
        Some(times)
    } else {
        None
    }
}

/// Two numbers of this size have a sum that fits.
const ROOM: u128 = 1 << 126;

/// The sum with a number of at most that size. Nothing is tested where the other one isn't larger either.
#[inline(always)]
fn sum_with_small(a: i128, b: i128) -> Option<i128>
    requires small { unsigned_abs b ≤ 2 ^ 126 }
    ensures { SomeIff result (Fits (a +ℤ b)) (a +ℤ b) }
{
    if a.unsigned_abs() < ROOM {
        return Some(a + b);
    }
    frac128::sum(a, b)
}

/// The sum, with one product more. Nothing is made of 0.
#[inline(always)]
pub fn whole_sum(sum: i128, x: i128, y: Frac) -> Option<i128>
    requires fits { Fits sum }
    ensures value { IfSome result (λ next. whole next ≡ whole sum +ℚ whole x *ℚ y) }
    ensures fits { IfSome result Fits }
{
    if x == 0 {
        return Some(sum);
    }
    let y = whole_number(y)?;
    if let (Ok(x), Ok(y)) = (i64::try_from(x), i64::try_from(y)) {
        return sum_with_small(sum, word_times(x, y));
    }
    let product = frac128::product(x, y)?;
    frac128::sum(sum, product)
}

/// A number over a divisor. Nothing is made of 0, and of a divisor of 1.
#[inline(always)]
pub fn whole_quotient(n: i128, by: Frac) -> Option<Frac>
    requires apart { by ≢ zero_ℚ }
    requires fits { Fits n }
    ensures { IfSome result (λ quotient. quotient ≡ whole n /ℚ by) }
{
    match i64::try_from(n) {
        Ok(n) => word_quotient(n, by),
        Err(_) => quotient(Frac::whole(n), by),
    }
}
