//! Values that are kept as numbers over one denominator, so that a sum of products needs no greatest common divisor. The numbers are
//! whole where the denominator is one of all of them; nothing but speed rests on that. Each call answers None where a number doesn't
//! fit, and then the values are lost. No call takes memory but `zeros`.
#![tactic(auto)]

ghost use Rattle.std.specs.Prelude.{◌≡◌, ◌≢◌, IfSome};
ghost use Rattle.exact_values.specs.Rational.{zero_ℚ, ◌*ℚ◌, ◌/ℚ◌};

mod places;
mod sparse_wholes;
mod sparse_words;
mod whole_numbers;
mod word_vectors;

use frac128::Frac;
pub use sparse_wholes::{LARGE, SparseWholes};
pub use sparse_words::SparseWords;
pub use whole_numbers::{whole_at, whole_number, whole_quotient, whole_sum};
pub use word_vectors::{number_at, word, word_quotient, word_sum};
use word_vectors::{word_fraction, word_multiple, word_product};

/// Whether a denominator is seen at once to be a multiple of that of a value.
fn is_multiple(denominator: Frac, value: Frac) -> bool {
    if value.den() == 1 {
        return true;
    }
    match (
        u64::try_from(denominator.num().unsigned_abs()),
        u64::try_from(value.den()),
    ) {
        (Ok(n), Ok(d)) => d != 0 && n % d == 0,
        _ => false,
    }
}

/// A common multiple of a denominator and of that of a value.
pub fn common_multiple(denominator: Frac, value: Frac) -> Option<Frac>
    requires { denominator ≢ zero_ℚ }
    ensures { IfSome result (λ multiple. multiple ≢ zero_ℚ) }
{
    if is_multiple(denominator, value) {
        return Some(denominator);
    }
    let left = denominator.mul(value).ok()?;
    denominator.mul(Frac::whole(left.den())).ok()
}

/// The product of two numbers. Nothing is made of 0 and of 1.
#[inline(always)]
pub fn product(x: Frac, y: Frac) -> Option<Frac>
    ensures { IfSome result (λ product. product ≡ x *ℚ y) }
{
    if x.is_zero() || y == Frac::whole(1) {
        return Some(x);
    }
    x.mul(y).ok()
}

/// A number over a divisor. Nothing is made of 0, and of a divisor of 1.
#[inline(always)]
fn quotient(number: Frac, by: Frac) -> Option<Frac>
    requires { by ≢ zero_ℚ }
    ensures { IfSome result (λ quotient. quotient ≡ number /ℚ by) }
{
    if number.is_zero() || by == Frac::whole(1) {
        return Some(number);
    }
    if number.den() == 1 && by.den() == 1 && by.num() >= 1 {
        return Some(Frac::new(number.num(), by.num()));
    }
    number.div(by).ok()
}

/// The numerator and the denominator, as whole numbers.
pub fn terms(x: Frac) -> (Frac, Frac)
    ensures product { result.0 ≡ x *ℚ result.1 }
    ensures apart { result.1 ≢ zero_ℚ }
{
    (Frac::whole(x.num()), Frac::whole(x.den()))
}

/// The product with a word that is a multiple of the denominator.
fn product_by_multiple(x: Frac, scale: Frac) -> Option<Frac>
    ensures { IfSome result (λ product. product ≡ x *ℚ scale) }
{
    let parts = terms(x);
    let whole_scale = word(scale)?;
    let times = word_multiple(whole_scale, parts.1)?;
    word_product(parts.0, word_fraction(times))
}

/// The product with a number that is mostly a multiple of the denominator.
pub fn product_by_scale(x: Frac, scale: Frac) -> Option<Frac>
    ensures { IfSome result (λ product. product ≡ x *ℚ scale) }
{
    match product_by_multiple(x, scale) {
        Some(product) => Some(product),
        None => product(x, scale),
    }
}
