//! Fractions that aren't brought to lowest terms, so that what is made of them needs no greatest common divisor.

ghost use Rattle.std.specs.Prelude.{◌≡◌, ◌↔◌, ◌≤ℤ◌, pos, unsigned_abs, IfOk, IfSome, IsTrue, replicate};
ghost use Rattle.exact_values.specs.Rational.{fraction, zero_ℚ, neg_ℚ, sign_ℚ};
ghost use Rattle.exact_values.specs.Tests.{lt_ℚ};
ghost use Rattle.frac128.specs.Terms.{Fits};

use crate::NoMemory;
use frac128::{Frac, product};
use std::alloc::Global;
use std::marker::Model;

/// How a fraction is kept: in lowest terms, or by terms that may have a common divisor.
#[derive(Clone, Copy)]
enum Form {
    Lowest(Frac),
    Terms { num: i128, den: i128 },
}

/// A fraction whose terms may have a common divisor: the denominator is at least 1, and neither term is larger than 2^127 - 1.
#[derive(Drop)]
pub struct Ratio {
    form: Form,
}

impl Model for Ratio {
    ghost use Rattle.exact_values.specs.Rational.{ℚ};
    ghost use Rattle.lp_model.specs.Ratios.{number_of, IsForm};

    ghost Value = { ℚ };

    ghost view = { λ a. number_of a.form };

    ghost invariant = { λ a. IsForm a.form };
}

impl Ratio {
    /// n/d, where d is at least 1 and n is not the least of all `i128`.
    #[inline(always)]
    pub fn new(n: i128, d: i128) -> Ratio
        requires at_least_one { pos 1 ≤ℤ d }
        requires n_fits { Fits n }
        ensures { result ≡ fraction n (unsigned_abs d) }
    {
        Ratio {
            form: Form::Terms { num: n, den: d },
        }
    }

    /// The same number.
    #[inline(always)]
    pub fn of(x: Frac) -> Ratio
        ensures { result ≡ x }
    {
        Ratio {
            form: Form::Lowest(x),
        }
    }

    /// A numerator and a denominator.
    #[inline(always)]
    pub fn terms(&self) -> (i128, i128)
        ensures value { fraction result.0 (unsigned_abs result.1) ≡ self.now }
        ensures at_least_one { pos 1 ≤ℤ result.1 }
        ensures num_fits { Fits result.0 }
        ensures den_fits { Fits result.1 }
    {
        match self.form {
            Form::Lowest(x) => (x.num(), x.den()),
            Form::Terms { num, den } => (num, den),
        }
    }

    /// Whether the number is 0.
    #[inline(always)]
    pub fn is_zero(&self) -> bool
        ensures { IsTrue result ↔ (self.now ≡ zero_ℚ) }
    {
        let (num, _) = self.terms();
        num == 0
    }

    /// -1, 0 or 1, as the number is below, at or above 0.
    #[inline(always)]
    pub fn sign(&self) -> i8
        ensures { result ≡ sign_ℚ self.now }
    {
        let (num, _) = self.terms();
        if num > 0 {
            1
        } else if num < 0 {
            -1
        } else {
            0
        }
    }

    /// The number, where its terms show at once that it is a whole one, over the denominator 1.
    #[inline(always)]
    pub fn as_whole(&self) -> Option<Frac>
        ensures { IfSome result (λ x. x ≡ self.now) }
    {
        let (num, den) = self.terms();
        if den == 1 {
            Some(Frac::whole(num))
        } else {
            None
        }
    }

    /// A copy.
    #[inline(always)]
    pub fn copy(&self) -> Ratio
        ensures { result ≡ self.now }
    {
        Ratio { form: self.form }
    }

    /// The same number in lowest terms.
    pub fn reduced(&self) -> Frac
        ensures { result ≡ self.now }
    {
        match self.form {
            Form::Lowest(x) => x,
            Form::Terms { num, den } => Frac::new(num, den),
        }
    }

    /// The opposite.
    #[inline(always)]
    pub fn neg(&self) -> Ratio
        ensures { result ≡ neg_ℚ self.now }
    {
        let (num, den) = self.terms();
        Ratio::new(-num, den)
    }

    /// Whether the number is below a limit.
    pub fn is_below(&self, limit: Frac) -> bool
        ensures { result ≡ lt_ℚ self.now limit }
    {
        let (num, den) = self.terms();
        if limit.is_zero() {
            return num < 0;
        }
        match (product(num, limit.den()), product(limit.num(), den)) {
            (Some(left), Some(right)) => left < right,
            _ => self.reduced().is_less(limit),
        }
    }

    /// Whether the number is above a limit.
    pub fn is_above(&self, limit: Frac) -> bool
        ensures { result ≡ lt_ℚ limit self.now }
    {
        let (num, den) = self.terms();
        if limit.is_zero() {
            return num > 0;
        }
        match (product(num, limit.den()), product(limit.num(), den)) {
            (Some(left), Some(right)) => right < left,
            _ => limit.is_less(self.reduced()),
        }
    }
}

/// So many zeros.
pub fn zero_ratios(alloc: Global, size: usize) -> Result<Vec<Ratio>, NoMemory>
    ensures { IfOk result (λ made. made.items ≡ replicate size zero_ℚ) }
{
    let mut made = Vec::with_capacity(alloc, size)?;
    for _place in 0..size {
        made.push(Ratio::of(Frac::whole(0))).map_err(|_| NoMemory)?;
    }
    Ok(made)
}

/// Fractions as ratios.
pub fn ratios_of(alloc: Global, values: &[Frac]) -> Result<Vec<Ratio>, NoMemory>
    ensures { IfOk result (λ made. made.items ≡ values.now) }
{
    let mut made = Vec::with_capacity(alloc, values.len())?;
    for value in values {
        made.push(Ratio::of(*value)).map_err(|_| NoMemory)?;
    }
    Ok(made)
}

/// Ratios in lowest terms.
pub fn reduced_values(alloc: Global, values: &[Ratio]) -> Result<Vec<Frac>, NoMemory>
    ensures { IfOk result (λ copy. copy.items ≡ values.now) }
{
    let mut copy = Vec::with_capacity(alloc, values.len())?;
    for value in values {
        copy.push(value.reduced()).map_err(|_| NoMemory)?;
    }
    Ok(copy)
}
