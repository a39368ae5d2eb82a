//! Rows in whole numbers of one machine word.

ghost use Rattle.exact_values.specs.Rational.{whole};

use crate::numbers::Numbers;
use frac128::Frac;
use whole_vectors::{SparseWords, number_at, word, word_quotient, word_sum};

impl Numbers for SparseWords {
    type Number = i64;

    ghost fraction = { whole };

    ghost is_sound = { λ _. Unit {0} };

    ghost fractions = { λ numbers. numbers };

    #[inline(always)]
    fn zero() -> i64 {
        0
    }

    #[inline(always)]
    fn is_zero(n: i64) -> bool {
        n == 0
    }

    #[inline(always)]
    fn whole_number(x: Frac) -> Option<i64> {
        word(x)
    }

    #[inline(always)]
    fn as_fraction(n: i64) -> Frac {
        Frac::whole(n as i128)
    }

    #[inline(always)]
    fn number_at(numbers: &[i64], k: u32) -> i64 {
        number_at(numbers, k)
    }

    #[inline(always)]
    fn plus(sum: i64, x: i64, y: Frac) -> Option<i64> {
        word_sum(sum, x, y)
    }

    #[inline(always)]
    fn plus_word(sum: i64, x: i64, y: i64) -> Option<i64> {
        if x == 0 {
            return Some(sum);
        }
        let product = x.checked_mul(y)?;
        sum.checked_add(product)
    }

    #[inline(always)]
    fn over(n: i64, by: Frac) -> Option<Frac> {
        word_quotient(n, by)
    }

    #[inline(always)]
    fn all(&self) -> &[i64] {
        self.numbers()
    }

    fn begin(&mut self, i: u32) -> Option<()> {
        self.clear();
        self.put(i, 1)
    }

    #[inline(always)]
    fn write(&mut self, k: u32, n: i64) -> Option<()> {
        self.put(k, n)
    }

    #[inline(always)]
    fn multiply_by(&mut self, by: Frac) -> Option<()> {
        self.multiply(by)
    }

    /// The denominator stays, since numbers of one machine word share little.
    #[inline(always)]
    fn reduce_over(&mut self, denominator: Frac) -> Option<Frac> {
        Some(denominator)
    }
}
