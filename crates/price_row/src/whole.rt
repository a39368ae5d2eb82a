//! Rows in whole numbers of any size that fits.

ghost use Rattle.exact_values.specs.Rational.{whole};
ghost use Rattle.frac128.specs.Terms.{Fits};

use crate::numbers::Numbers;
use frac128::Frac;
use whole_vectors::{SparseWholes, whole_at, whole_number, whole_quotient, whole_sum};

impl Numbers for SparseWholes {
    type Number = i128;

    ghost fraction = { whole };

    ghost is_sound = { Fits };

    ghost fractions = { λ numbers. numbers };

    #[inline(always)]
    fn zero() -> i128 {
        0
    }

    #[inline(always)]
    fn is_zero(n: i128) -> bool {
        n == 0
    }

    #[inline(always)]
    fn whole_number(x: Frac) -> Option<i128> {
        whole_number(x)
    }

    #[inline(always)]
    fn as_fraction(n: i128) -> Frac {
        Frac::whole(n)
    }

    #[inline(always)]
    fn number_at(numbers: &[i128], k: u32) -> i128 {
        whole_at(numbers, k)
    }

    #[inline(always)]
    fn plus(sum: i128, x: i128, y: Frac) -> Option<i128> {
        whole_sum(sum, x, y)
    }

    #[inline(always)]
    fn plus_word(sum: i128, x: i128, y: i64) -> Option<i128> {
        whole_sum(sum, x, Frac::whole(y as i128))
    }

    #[inline(always)]
    fn over(n: i128, by: Frac) -> Option<Frac> {
        whole_quotient(n, by)
    }

    #[inline(always)]
    fn all(&self) -> &[i128] {
        self.numbers()
    }

    fn begin(&mut self, i: u32) -> Option<()> {
        self.clear();
        self.put(i, 1)
    }

    #[inline(always)]
    fn write(&mut self, k: u32, n: i128) -> Option<()> {
        self.put(k, n)
    }

    #[inline(always)]
    fn multiply_by(&mut self, by: Frac) -> Option<()> {
        self.multiply(by)
    }

    #[inline(always)]
    fn reduce_over(&mut self, denominator: Frac) -> Option<Frac> {
        self.reduce(denominator)
    }
}
