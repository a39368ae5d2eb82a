//! Numbers over one denominator that are whole numbers of one machine word each. Where a number isn't, the answer is None.

ghost use Rattle.std.specs.Prelude.{◌≡◌, ◌≢◌, ◌≤◌, ◌^◌, ◌+ℤ◌, ◌*ℤ◌, unsigned_abs, length, IfSome};
ghost use Rattle.exact_values.specs.Rational.{whole, zero_ℚ, ◌+ℚ◌, ◌*ℚ◌, ◌/ℚ◌};
ghost use Rattle.frac128.specs.Terms.{Fits};
ghost use Rattle.lp_definitions.specs.LinearProgram.{value_at};
ghost use Rattle.whole_vectors.specs.Words.{wholes};

use crate::quotient;
use frac128::Frac;

/// The whole number that a fraction is, where it is one of one machine word.
#[inline(always)]
pub fn word(x: Frac) -> Option<i64>
    ensures { IfSome result (λ n. whole n ≡ x) }
{
    if x.den() != 1 {
        return None;
    }
    match i64::try_from(x.num()) {
        Ok(n) => Some(n),
        Err(_) => None,
    }
}

/// A word as a fraction.
#[inline(always)]
pub fn word_fraction(n: i64) -> Frac
    ensures { result ≡ whole n }
{
    Frac::whole(n as i128)
}

/// The number at the variable `k`.
#[inline(always)]
pub fn number_at(numbers: &[i64], k: u32) -> i64
    requires low { 1 ≤ k }
    requires high { k ≤ length numbers.now }
    ensures { whole result ≡ value_at (wholes numbers.now) k }
{
    numbers[k as usize - 1]
}

/// The product of two words, which is far from the largest number.
#[inline(always)]
pub fn word_times(x: i64, y: i64) -> i128
    ensures value { result ≡ x *ℤ y }
    ensures small { unsigned_abs result ≤ 2 ^ 126 }
{
    x as i128 * y as i128
}

/// sum + x*y of words, which fits.
#[inline(always)]
fn word_total(sum: i64, x: i64, y: i64) -> i128
    ensures value { result ≡ sum +ℤ x *ℤ y }
    ensures fits { Fits result }
{
    sum as i128 + x as i128 * y as i128
}

/// The product of two words, as a fraction.
#[inline(always)]
pub fn word_product(x: Frac, y: Frac) -> Option<Frac>
    ensures { IfSome result (λ product. product ≡ x *ℚ y) }
{
    let left = word(x)?;
    let right = word(y)?;
    Some(Frac::whole(word_total(0, left, right)))
}

/// The sum, with one product more. Nothing is made of 0, and no product of 1.
#[inline(always)]
pub fn word_sum(sum: i64, x: i64, y: Frac) -> Option<i64>
    ensures { IfSome result (λ next. whole next ≡ whole sum +ℚ whole x *ℚ y) }
{
    if x == 0 {
        return Some(sum);
    }
    let y = word(y)?;
    if y == 1 {
        return sum.checked_add(x);
    }
    match i64::try_from(word_total(sum, x, y)) {
        Ok(next) => Some(next),
        Err(_) => None,
    }
}

/// How often a word has a divisor, where this is a word too, at least 1, and it is a multiple of it.
#[inline(always)]
pub fn word_multiple(n: i64, by: Frac) -> Option<i64>
    ensures { IfSome result (λ times. whole n ≡ whole times *ℚ by) }
{
    let divisor = word(by)?;
    if divisor < 1 {
        return None;
    }
    let times = n / divisor;
    if word_total(0, times, divisor) == n as i128 {
        Some(times)
    } else {
        None
    }
}

/// A word over a divisor. Nothing is made of 0, and of a divisor of 1, and nothing is reduced where it is a multiple.
#[inline(always)]
pub fn word_quotient(n: i64, by: Frac) -> Option<Frac>
    requires { by ≢ zero_ℚ }
    ensures { IfSome result (λ quotient. quotient ≡ whole n /ℚ by) }
{
    if n == 0 || by == Frac::whole(1) {
        return Some(word_fraction(n));
    }
    if let Some(times) = word_multiple(n, by) {
        return Some(word_fraction(times));
    }
    quotient(word_fraction(n), by)
}
