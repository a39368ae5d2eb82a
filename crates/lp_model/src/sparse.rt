//! Vectors most of whose numbers are 0.

ghost use Rattle.std.specs.Prelude.{◌≡◌, ◌≢◌, ◌≤◌, ◌≤ℤ◌, pos, ◌++◌, ◌∷◌, ◌-◌, ◌^◌, ◌<◌, [], ℕ, All, filter, length, replicate, set, IfOk, OnOk, OnErr, not};
ghost use Rattle.exact_values.specs.Rational.{zero_ℚ};
ghost use Rattle.exact_values.specs.Tests.{eq_ℚ};
ghost use Rattle.frac128.specs.Terms.{Fits};
ghost use Rattle.lp_definitions.specs.LinearProgram.{value_at, numbers_from};
ghost use Rattle.lp_model.specs.Sparse.{AreNonzero, CoverNonzero, CoverPlaces, over, IsPartly};

use crate::NoMemory;
use crate::ratio::{Ratio, ratios_of, zero_ratios};
use frac128::Frac;
use std::alloc::Global;
use std::marker::Model;
use std::mem::replace;

/// A number for each variable, with the list of the variables whose numbers aren't 0, ascending: what goes over the list doesn't look
/// at the others.
#[derive(Drop)]
pub struct SparseVector {
    values: Vec<Ratio>,
    nonzero: Vec<u32>,
    alloc: Global,
}

impl Model for SparseVector {
    ghost use Rattle.std.specs.Prelude.{List};
    ghost use Rattle.exact_values.specs.Rational.{ℚ};
    ghost use Rattle.lp_model.specs.Sparse.{IsSparse};

    ghost Value = { List ℚ };

    ghost view = { λ a. a.values.items };

    ghost invariant = { IsSparse };
}

/// Whether the number of variable `k` isn't 0.
#[inline(always)]
#[tactic(auto, using(crate::proofs::NonzeroLists::nonzero_test))]
fn is_nonzero(values: &[Ratio], k: u32) -> bool
    requires low { 1 ≤ k }
    requires high { k ≤ length values.now }
    ensures { result ≡ not (eq_ℚ (value_at values.now k) zero_ℚ) }
{
    !values[k as usize - 1].is_zero()
}

/// Puts the candidates' numbers over a denominator, and lists the candidates whose numbers aren't 0.
fn put_listed(
    numbers: &[i128],
    denominator: i128,
    candidates: &[u32],
    values: &mut [Ratio],
    kept: &mut Vec<u32>,
) -> Result<(), NoMemory>
    requires at_least_one { pos 1 ≤ℤ denominator }
    requires fit { All Fits numbers.now }
    requires places { length values.old ≡ length numbers.now }
    requires candidates { All (λ k. (1 ≤ k) × (k ≤ length numbers.now)) candidates.now }
    requires partly { IsPartly (over denominator numbers.now) values.old }
    ensures places { length values.new ≡ length values.old }
    ensures partly { IsPartly (over denominator numbers.now) values.new }
    ensures own { OnOk result
        (All (λ k. value_at values.new k ≡ value_at (over denominator numbers.now) k)
        candidates.now) }
    ensures others { (k : ℕ) → value_at values.old k ≡ value_at (over denominator numbers.now) k →
        value_at values.new k ≡ value_at (over denominator numbers.now) k }
    ensures kept { OnOk result (kept.new.items ≡ kept.old.items ++ filter
        (λ k. not (eq_ℚ (value_at (over denominator numbers.now) k) zero_ℚ)) candidates.now) }
{
    for candidate in candidates {
        let place = *candidate as usize - 1;
        let number = numbers[place];
        if number != 0 {
            values[place] = Ratio::new(number, denominator);
            kept.push(*candidate).map_err(|_| NoMemory)?;
        }
    }
    Ok(())
}

/// The same of two lists, and of one variable between them.
fn put_around(
    numbers: &[i128],
    denominator: i128,
    before: &[u32],
    k: u32,
    after: &[u32],
    values: &mut [Ratio],
    kept: &mut Vec<u32>,
) -> Result<(), NoMemory>
    requires at_least_one { pos 1 ≤ℤ denominator }
    requires fit { All Fits numbers.now }
    requires places { length values.old ≡ length numbers.now }
    requires covered { CoverNonzero (over denominator numbers.now) (before.now ++ k ∷ after.now) }
    requires zero { (n : ℕ) → 1 ≤ n → value_at values.old n ≡ zero_ℚ }
    ensures values { OnOk result (values.new ≡ over denominator numbers.now) }
    ensures kept { OnOk result (kept.new.items ≡ kept.old.items ++ filter
        (λ k. not (eq_ℚ (value_at (over denominator numbers.now) k) zero_ℚ))
        (before.now ++ k ∷ after.now)) }
{
    put_listed(numbers, denominator, before, values, kept)?;
    put_listed(numbers, denominator, &[k], values, kept)?;
    put_listed(numbers, denominator, after, values, kept)
}

/// Makes a number that is 0 another one, and puts its variable in at its place in the list.
fn put_one(
    values: &mut [Ratio],
    listed: &mut Vec<u32>,
    k: u32,
    number: Ratio,
) -> Result<(), NoMemory>
    requires low { 1 ≤ k }
    requires high { k ≤ length values.old }
    requires zero { value_at values.old k ≡ zero_ℚ }
    requires some { number ≢ zero_ℚ }
    requires listed { AreNonzero values.old listed.old.items }
    ensures number { OnOk result (values.new ≡ set values.old (k - 1) number) }
    ensures listed { OnOk result (AreNonzero values.new listed.new.items) }
{
    let place = listed.partition_point(|i| *i < k);
    listed.insert(place, k).map_err(|_| NoMemory)?;
    values[k as usize - 1] = number;
    Ok(())
}

/// Puts the numbers at these places over a denominator, where all were 0, and lists the variables whose numbers aren't 0.
fn put_places(
    numbers: &[i128],
    denominator: i128,
    places: &[usize],
    values: &mut [Ratio],
    listed: &mut Vec<u32>,
) -> Result<(), NoMemory>
    requires at_least_one { pos 1 ≤ℤ denominator }
    requires fit { All Fits numbers.now }
    requires small { length numbers.now < 2 ^ 32 }
    requires lengths { length values.old ≡ length numbers.now }
    requires covered { CoverPlaces numbers.now places.now }
    requires zero { (n : ℕ) → 1 ≤ n → value_at values.old n ≡ zero_ℚ }
    requires none { listed.old.items ≡ [] }
    ensures values { OnOk result (values.new ≡ over denominator numbers.now) }
    ensures listed { OnOk result (AreNonzero values.new listed.new.items) }
{
    for place in places {
        let number = numbers[*place];
        if number != 0 && values[*place].is_zero() {
            let k = *place as u32 + 1;
            put_one(values, listed, k, Ratio::new(number, denominator))?;
        }
    }
    Ok(())
}

/// Adds all variables whose numbers aren't 0.
fn keep_all_nonzero(values: &[Ratio], kept: &mut Vec<u32>) -> Result<(), NoMemory>
    requires { length values.now < 2 ^ 32 }
    ensures { OnOk result (kept.new.items ≡ kept.old.items ++ filter
        (λ k. not (eq_ℚ (value_at values.now k) zero_ℚ)) (numbers_from 1 (length values.now))) }
{
    for place in 0..values.len() {
        let k = place as u32 + 1;
        if is_nonzero(values, k) {
            kept.push(k).map_err(|_| NoMemory)?;
        }
    }
    Ok(())
}

/// Makes the numbers of the listed variables 0.
fn clear(values: &mut [Ratio], listed: &[u32])
    requires { AreNonzero values.old listed.now }
    ensures zero { (k : ℕ) → 1 ≤ k → value_at values.new k ≡ zero_ℚ }
{
    for k in listed {
        values[*k as usize - 1] = Ratio::of(Frac::whole(0));
    }
}

impl SparseVector {
    /// So many numbers, all 0.
    pub fn zeros(alloc: Global, size: usize) -> Result<SparseVector, NoMemory>
        ensures { IfOk result (λ made. made ≡ replicate size zero_ℚ) }
    {
        Ok(SparseVector {
            values: zero_ratios(alloc, size)?,
            nonzero: Vec::new(alloc),
            alloc,
        })
    }

    /// The numbers of all variables.
    pub fn values(&self) -> &[Ratio]
        ensures { result.now ≡ self.now }
    {
        &self.values
    }

    /// The variables whose numbers aren't 0, ascending.
    pub fn nonzero(&self) -> &[u32]
        ensures { AreNonzero self.now result.now }
    {
        &self.nonzero
    }

    /// Takes the numbers out, all of them made 0; none is left.
    fn take(&mut self) -> Vec<Ratio>
        ensures zero { (k : ℕ) → 1 ≤ k → value_at result.items k ≡ zero_ℚ }
        ensures places { length result.items ≡ length self.old }
        ensures none { self.new ≡ [] }
    {
        clear(&mut self.values, &self.nonzero);
        self.nonzero.clear();
        replace(&mut self.values, Vec::new(self.alloc))
    }

    /// Makes the numbers whole numbers over a denominator. The candidates are two lists and one variable between them; they ascend, and none
    /// whose number isn't 0 is missing among them.
    pub fn put_over(
        &mut self,
        numbers: &[i128],
        denominator: i128,
        before: &[u32],
        k: u32,
        after: &[u32],
    ) -> Result<(), NoMemory>
        requires at_least_one { pos 1 ≤ℤ denominator }
        requires fit { All Fits numbers.now }
        requires places { length self.old ≡ length numbers.now }
        requires covered { CoverNonzero (over denominator numbers.now)
            (before.now ++ k ∷ after.now) }
        ensures values { OnOk result (self.new ≡ over denominator numbers.now) }
        ensures none { OnErr result (self.new ≡ []) }
    {
        let mut values = self.take();
        let nonzero = &mut self.nonzero;
        match put_around(numbers, denominator, before, k, after, &mut values, nonzero) {
            Ok(()) => {
                self.values = values;
                Ok(())
            }
            Err(refused) => {
                self.nonzero.clear();
                Err(refused)
            }
        }
    }

    /// Makes the numbers whole numbers over a denominator, where few aren't 0. None of these is missing at the listed places, which may stand
    /// in any order.
    pub fn put_few(
        &mut self,
        numbers: &[i128],
        denominator: i128,
        places: &[usize],
    ) -> Result<(), NoMemory>
        requires at_least_one { pos 1 ≤ℤ denominator }
        requires fit { All Fits numbers.now }
        requires small { length numbers.now < 2 ^ 32 }
        requires lengths { length self.old ≡ length numbers.now }
        requires covered { CoverPlaces numbers.now places.now }
        ensures values { OnOk result (self.new ≡ over denominator numbers.now) }
        ensures none { OnErr result (self.new ≡ []) }
    {
        let mut values = self.take();
        match put_places(numbers, denominator, places, &mut values, &mut self.nonzero) {
            Ok(()) => {
                self.values = values;
                Ok(())
            }
            Err(refused) => {
                self.nonzero.clear();
                Err(refused)
            }
        }
    }

    /// As many zeros as there are numbers, in lowest terms.
    pub fn zero_fractions(&self) -> Result<Vec<Frac>, NoMemory>
        ensures { IfOk result (λ made. made.items ≡ replicate (length self.now) zero_ℚ) }
    {
        let made = vec![in self.alloc; Frac::whole(0); self.values.len()]?;
        Ok(made)
    }

    /// Makes the numbers these fractions.
    pub fn put_all(&mut self, values: &[Frac]) -> Result<(), NoMemory>
        requires small { length values.now < 2 ^ 32 }
        ensures values { OnOk result (self.new ≡ values.now) }
        ensures none { OnErr result (self.new ≡ []) }
    {
        self.nonzero.clear();
        self.values.clear();
        let values = ratios_of(self.alloc, values)?;
        match keep_all_nonzero(&values, &mut self.nonzero) {
            Ok(()) => {
                self.values = values;
                Ok(())
            }
            Err(refused) => {
                self.nonzero.clear();
                Err(refused)
            }
        }
    }
}
