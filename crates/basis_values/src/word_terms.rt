//! How long a motion lasts at least, by fractions whose terms are words.

ghost use Rattle.std.specs.Prelude.{◌≡◌, ◌*◌, ◌+◌, ◌^◌, ◌<◌, ◌≤◌, IfSome, IsTrue};
ghost use Rattle.exact_values.specs.Rational.{◌≤ℚ◌, ◌/ℚ◌};
ghost use Rattle.basis_values.specs.WordTerms.{AreTermsOf, MakeUp};

use frac128::Frac;
use lp_model::Ratio;

/// The least number of more than one machine word.
const BASE: u128 = 1 << 64;

/// A fraction's numerator, which isn't negative, and its denominator.
#[derive(Clone, Copy)]
struct Words {
    top: u64,
    bottom: u64,
}

/// The terms of a fraction, where they are words.
#[inline(always)]
fn words_of(x: Frac) -> Option<Words>
    ensures { IfSome result (AreTermsOf x) }
{
    let top = u64::try_from(x.num()).ok()?;
    let bottom = u64::try_from(x.den()).ok()?;
    Some(Words { top, bottom })
}

/// The same of a fraction that isn't brought to lowest terms.
#[inline(always)]
fn words_of_ratio(x: &Ratio) -> Option<Words>
    ensures { IfSome result (MakeUp x.now) }
{
    let (num, den) = x.terms();
    let top = u64::try_from(num).ok()?;
    let bottom = u64::try_from(den).ok()?;
    Some(Words { top, bottom })
}

/// A number as what is above its lowest word, and that word.
#[derive(Clone, Copy)]
struct Long {
    high: u128,
    low: u128,
}

/// The product of three words.
#[inline(always)]
fn product_of_words(x: u64, y: u64, z: u64) -> Long
    ensures value { result.high * 2 ^ 64 + result.low ≡ x * y * z }
    ensures low { result.low < 2 ^ 64 }
{
    let pair = x as u128 * y as u128;
    let low = (pair % BASE) * z as u128;
    let high = (pair / BASE) * z as u128 + low / BASE;
    Long {
        high,
        low: low % BASE,
    }
}

/// Whether the first number is at most the second one.
#[inline(always)]
fn is_at_most(x: &Long, y: &Long) -> bool
    requires { x.now.low < 2 ^ 64 }
    ensures { IsTrue result → x.now.high * 2 ^ 64 + x.now.low ≤ y.now.high * 2 ^ 64 + y.now.low }
{
    x.high < y.high || x.high == y.high && x.low <= y.low
}

/// Whether a distance over a speed is at least a length, as the product of the length and the speed shows it, where their terms are
/// words.
#[inline(always)]
pub fn lasts(distance: &Ratio, speed: &Ratio, length: Frac) -> Option<bool>
    ensures { IfSome result (λ lasts. IsTrue lasts → length ≤ℚ distance.now /ℚ speed.now) }
{
    let d = words_of_ratio(distance)?;
    let s = words_of_ratio(speed)?;
    let l = words_of(length)?;
    if s.top == 0 {
        return None;
    }
    let left = product_of_words(l.top, s.top, d.bottom);
    let right = product_of_words(d.top, l.bottom, s.bottom);
    Some(is_at_most(&left, &right))
}
