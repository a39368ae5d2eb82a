//! Vectors of whole numbers of one machine word, most of which are 0. Where a number isn't one, the answer is None.

ghost use Rattle.std.specs.Prelude.{◌≡◌, ◌≢◌, ◌≤◌, ◌<◌, ◌-◌, ℕ, All, IfOk, IfSome, length, replicate, slice_index_or, set};
ghost use Rattle.exact_values.specs.Rational.{whole, zero_ℚ, ◌*ℚ◌, ◌/ℚ◌};
ghost use Rattle.lp_definitions.specs.LinearProgram.{value_at};
ghost use Rattle.whole_vectors.specs.Quotients.{AreProducts, AreQuotients};
ghost use Rattle.whole_vectors.specs.Words.{wholes};
ghost use Rattle.whole_vectors.specs.Ranks.{IsRank, AreWritten, AreChanged, AreKept};

use crate::places::enlist;
use crate::{word_quotient, word_sum};
use frac128::Frac;
use std::alloc::{AllocError, Global};
use std::marker::Model;

/// A whole number of one machine word for each variable, and a list of places that none is missing from whose number isn't 0: what goes
/// over the numbers goes over that list. Each place of the list has its rank there.
#[derive(Drop)]
pub struct SparseWords {
    numbers: Vec<i64>,
    listed: Vec<usize>,
    ranks: Vec<usize>,
}

impl Model for SparseWords {
    ghost use Rattle.std.specs.Prelude.{List};
    ghost use Rattle.exact_values.specs.Rational.{ℚ};

    ghost Value = { List ℚ };

    ghost use Rattle.whole_vectors.specs.Ranks.{fractions_of, IsSparse};

    ghost view = { fractions_of };

    ghost invariant = { IsSparse };
}

/// Makes the numbers at the listed places 0.
fn clear_listed(numbers: &mut [i64], listed: &[usize])
    requires { All (λ n. n < length numbers.old) listed.now }
    ensures { AreChanged (λ _. zero_ℚ) listed.now (wholes numbers.old) (wholes numbers.new) }
{
    for rank in 0..listed.len() {
        let place = listed[rank];
        numbers[place] = 0;
    }
}

/// Makes the numbers at the listed places their products with a factor.
fn multiply_listed(numbers: &mut [i64], listed: &[usize], by: Frac) -> Option<()>
    requires { All (λ n. n < length numbers.old) listed.now }
    ensures products { IfSome result (λ _. AreChanged (λ x. x *ℚ by) listed.now (wholes numbers.old)
        (wholes numbers.new)) }
    ensures others { AreKept listed.now (wholes numbers.old) (wholes numbers.new) }
{
    for rank in 0..listed.len() {
        let place = listed[rank];
        let number = numbers[place];
        let made = word_sum(0, number, by)?;
        numbers[place] = made;
    }
    Some(())
}

/// Puts the quotients of the numbers at the listed places there.
fn divide_listed(numbers: &[i64], listed: &[usize], by: Frac, out: &mut [Frac]) -> Option<()>
    requires within { All (λ n. n < length numbers.now) listed.now }
    requires places { length out.old ≡ length numbers.now }
    requires apart { by ≢ zero_ℚ }
    ensures { IfSome result (λ _. (rank : ℕ → ℕ) → IsRank rank listed.now → AreWritten rank
        listed.now (λ n. slice_index_or (wholes numbers.now) n zero_ℚ /ℚ by) (length listed.now)
        out.old out.new) }
{
    for rank in 0..listed.len() {
        let place = listed[rank];
        let number = numbers[place];
        out[place] = word_quotient(number, by)?;
    }
    Some(())
}

impl SparseWords {
    /// So many numbers, all 0.
    pub fn zeros(alloc: Global, size: usize) -> Result<SparseWords, AllocError>
        ensures { IfOk result (λ made. made ≡ replicate size zero_ℚ) }
    {
        Ok(SparseWords {
            numbers: vec![in alloc; 0; size]?,
            listed: Vec::with_capacity(alloc, size)?,
            ranks: vec![in alloc; 0; size]?,
        })
    }

    /// The numbers of all variables.
    #[inline(always)]
    pub fn numbers(&self) -> &[i64]
        ensures numbers { wholes result.now ≡ self.now }
        ensures places { length result.now ≡ length self.now }
    {
        &self.numbers
    }

    /// Makes `n` the number of the variable `k`, from 1.
    #[inline(always)]
    pub fn put(&mut self, k: u32, n: i64) -> Option<()>
        requires low { 1 ≤ k }
        requires high { k ≤ length self.old }
        ensures number { IfSome result (λ _. self.new ≡ set self.old (k - 1) (whole n)) }
        ensures places { length self.new ≡ length self.old }
    {
        let place = k as usize - 1;
        if self.numbers[place] == n {
            return Some(());
        }
        enlist(&mut self.listed, &mut self.ranks, place)?;
        self.numbers[place] = n;
        Some(())
    }

    /// Makes all numbers 0.
    pub fn clear(&mut self)
        ensures zero { (k : ℕ) → value_at self.new k ≡ zero_ℚ }
        ensures places { length self.new ≡ length self.old }
    {
        clear_listed(&mut self.numbers, &self.listed);
        self.listed.clear();
    }

    /// Makes each number its product with a factor.
    pub fn multiply(&mut self, by: Frac) -> Option<()>
        ensures products { IfSome result (λ _. AreProducts by self.old self.new) }
        ensures places { length self.new ≡ length self.old }
    {
        if by == Frac::whole(1) {
            return Some(());
        }
        multiply_listed(&mut self.numbers, &self.listed, by)
    }

    /// Fills `out`, which is all 0, with the quotients of the numbers by a divisor.
    pub fn divide_into(&self, by: Frac, out: &mut [Frac]) -> Option<()>
        requires apart { by ≢ zero_ℚ }
        requires places { length out.old ≡ length self.now }
        requires zero { (k : ℕ) → 1 ≤ k → value_at out.old k ≡ zero_ℚ }
        ensures { IfSome result (λ _. AreQuotients by self.now out.new) }
    {
        divide_listed(&self.numbers, &self.listed, by, out)
    }
}
