//! Vectors of whole numbers over one denominator, most of which are 0. Where a number doesn't fit, the answer is None.

ghost use Rattle.std.specs.Prelude.{◌≡◌, ◌≢◌, ◌≤◌, ◌<◌, ◌-◌, ◌≤ℤ◌, ℕ, pos, All, IfOk, IfSome, length, replicate, slice_index_or, set};
ghost use Rattle.exact_values.specs.Rational.{whole, zero_ℚ, ◌+ℚ◌, ◌*ℚ◌, ◌/ℚ◌};
ghost use Rattle.frac128.specs.Terms.{Fits};
ghost use Rattle.lp_definitions.specs.LinearProgram.{value_at};
ghost use Rattle.whole_vectors.specs.Quotients.{AreProducts, AreQuotients, IsSameOver};
ghost use Rattle.whole_vectors.specs.Words.{wholes};
ghost use Rattle.whole_vectors.specs.Ranks.{IsRank, AreWritten, AreChanged, AreKept};

use crate::places::enlist;
use crate::whole_numbers::{whole_multiple, whole_number, whole_quotient, whole_sum};
use exact_values::gcd;
use frac128::Frac;
use std::alloc::{AllocError, Global};
use std::marker::Model;

/// A denominator of this size or more is reduced.
pub const LARGE: u128 = 1 << 50;

/// A whole number for each variable, and a list of places that none is missing from whose number isn't 0: what goes over the numbers goes
/// over that list. Each place of the list has its rank there.
#[derive(Drop)]
pub struct SparseWholes {
    numbers: Vec<i128>,
    listed: Vec<usize>,
    ranks: Vec<usize>,
}

impl Model for SparseWholes {
    ghost use Rattle.std.specs.Prelude.{List};
    ghost use Rattle.exact_values.specs.Rational.{ℚ};

    ghost Value = { List ℚ };

    ghost use Rattle.whole_vectors.specs.SparseWhole.{fractions_of, IsSparse};

    ghost view = { fractions_of };

    ghost invariant = { IsSparse };
}

/// Makes the numbers at the listed places 0.
fn clear_listed(numbers: &mut [i128], listed: &[usize])
    requires within { All (λ n. n < length numbers.old) listed.now }
    requires fit { All Fits numbers.old }
    ensures zero { AreChanged (λ _. zero_ℚ) listed.now (wholes numbers.old) (wholes numbers.new) }
    ensures fit { All Fits numbers.new }
{
    for rank in 0..listed.len() {
        let place = listed[rank];
        numbers[place] = 0;
    }
}

/// Makes the numbers at the listed places their products with a factor.
fn multiply_listed(numbers: &mut [i128], listed: &[usize], by: i128) -> Option<()>
    requires within { All (λ n. n < length numbers.old) listed.now }
    requires fit { All Fits numbers.old }
    requires factor { Fits by }
    ensures products { IfSome result (λ _. AreChanged (λ x. x *ℚ whole by) listed.now
        (wholes numbers.old) (wholes numbers.new)) }
    ensures others { AreKept listed.now (wholes numbers.old) (wholes numbers.new) }
    ensures fit { All Fits numbers.new }
{
    for rank in 0..listed.len() {
        let place = listed[rank];
        let made = frac128::product(numbers[place], by)?;
        numbers[place] = made;
    }
    Some(())
}

/// Whether a number is a multiple of a factor, by machine words where both are ones.
#[inline(always)]
fn has_factor(n: u128, factor: u128) -> bool {
    match (u64::try_from(n), u64::try_from(factor)) {
        (Ok(n), Ok(factor)) => factor != 0 && n % factor == 0,
        _ => factor != 0 && n % factor == 0,
    }
}

/// What a denominator and the numbers at the listed places share.
fn shared(numbers: &[i128], listed: &[usize], denominator: u128) -> u128
    requires within { All (λ n. n < length numbers.now) listed.now }
{
    let mut factor = denominator;
    for rank in 0..listed.len() {
        if factor == 1 {
            return 1;
        }
        let number = numbers[listed[rank]].unsigned_abs();
        if !has_factor(number, factor) {
            factor = gcd(factor, number);
        }
    }
    factor
}

/// Takes a factor out of the numbers at the listed places.
fn take_out(numbers: &mut [i128], listed: &[usize], factor: i128) -> Option<()>
    requires within { All (λ n. n < length numbers.old) listed.now }
    requires fit { All Fits numbers.old }
    requires at_least_one { pos 1 ≤ℤ factor }
    ensures quotients { IfSome result (λ _. AreChanged (λ x. x /ℚ whole factor) listed.now
        (wholes numbers.old) (wholes numbers.new)) }
    ensures others { AreKept listed.now (wholes numbers.old) (wholes numbers.new) }
    ensures fit { All Fits numbers.new }
{
    for rank in 0..listed.len() {
        let place = listed[rank];
        let made = whole_multiple(numbers[place], factor)?;
        numbers[place] = made;
    }
    Some(())
}

/// Puts the quotients of the numbers at the listed places there.
fn divide_listed(numbers: &[i128], listed: &[usize], by: Frac, out: &mut [Frac]) -> Option<()>
    requires within { All (λ n. n < length numbers.now) listed.now }
    requires fit { All Fits numbers.now }
    requires places { length out.old ≡ length numbers.now }
    requires apart { by ≢ zero_ℚ }
    ensures { IfSome result (λ _. (rank : ℕ → ℕ) → IsRank rank listed.now → AreWritten rank
        listed.now (λ n. slice_index_or (wholes numbers.now) n zero_ℚ /ℚ by) (length listed.now)
        out.old out.new) }
{
    for rank in 0..listed.len() {
        let place = listed[rank];
        let number = numbers[place];
        out[place] = whole_quotient(number, by)?;
    }
    Some(())
}

impl SparseWholes {
    /// So many numbers, all 0.
    pub fn zeros(alloc: Global, size: usize) -> Result<SparseWholes, AllocError>
        ensures { IfOk result (λ made. made ≡ replicate size zero_ℚ) }
    {
        Ok(SparseWholes {
            numbers: vec![in alloc; 0; size]?,
            listed: Vec::with_capacity(alloc, size)?,
            ranks: vec![in alloc; 0; size]?,
        })
    }

    /// The numbers of all variables.
    #[inline(always)]
    pub fn numbers(&self) -> &[i128]
        ensures numbers { wholes result.now ≡ self.now }
        ensures places { length result.now ≡ length self.now }
        ensures fit { All Fits result.now }
    {
        &self.numbers
    }

    /// The places whose numbers may differ from 0, in any order; none whose number does is missing among them.
    #[inline(always)]
    pub fn listed(&self) -> &[usize]
        ensures within { All (λ n. n < length self.now) result.now }
        ensures none_missing { (n : ℕ) →
            ((i : ℕ) → i < length result.now → slice_index_or result.now i 0 ≢ n) →
            slice_index_or self.now n zero_ℚ ≡ zero_ℚ }
    {
        &self.listed
    }

    /// Makes `n` the number at a place, and lists the place if 0 stands there.
    #[inline(always)]
    fn write(&mut self, place: usize, n: i128) -> Option<()>
        requires within { place < length self.old }
        requires fits { Fits n }
        ensures number { IfSome result (λ _. self.new ≡ set self.old place (whole n)) }
        ensures places { length self.new ≡ length self.old }
    {
        let held = self.numbers[place];
        if held != 0 {
            self.numbers[place] = n;
            return Some(());
        }
        enlist(&mut self.listed, &mut self.ranks, place)?;
        self.numbers[place] = n;
        Some(())
    }

    /// Makes `n` the number of the variable `k`, from 1.
    #[inline(always)]
    pub fn put(&mut self, k: u32, n: i128) -> Option<()>
        requires low { 1 ≤ k }
        requires high { k ≤ length self.old }
        requires fits { Fits n }
        ensures number { IfSome result (λ _. self.new ≡ set self.old (k - 1) (whole n)) }
        ensures places { length self.new ≡ length self.old }
    {
        let place = k as usize - 1;
        if self.numbers[place] == n {
            return Some(());
        }
        self.write(place, n)
    }

    /// Adds a product to the number of the variable `k`, from 1.
    #[inline(always)]
    pub fn add_product(&mut self, k: u32, x: i128, y: Frac) -> Option<()>
        requires low { 1 ≤ k }
        requires high { k ≤ length self.old }
        ensures number { IfSome result (λ _. self.new ≡ set self.old (k - 1)
            (value_at self.old k +ℚ whole x *ℚ y)) }
        ensures places { length self.new ≡ length self.old }
    {
        let place = k as usize - 1;
        let held = self.numbers[place];
        let next = whole_sum(held, x, y)?;
        self.write(place, next)
    }

    /// Makes all numbers 0.
    pub fn clear(&mut self)
        ensures zero { (k : ℕ) → value_at self.new k ≡ zero_ℚ }
        ensures places { length self.new ≡ length self.old }
    {
        clear_listed(&mut self.numbers, &self.listed);
        self.listed.clear();
    }

    /// Makes each number its product with a factor.
    pub fn multiply(&mut self, by: Frac) -> Option<()>
        ensures products { IfSome result (λ _. AreProducts by self.old self.new) }
        ensures places { length self.new ≡ length self.old }
    {
        let factor = whole_number(by)?;
        if factor == 1 {
            return Some(());
        }
        multiply_listed(&mut self.numbers, &self.listed, factor)
    }

    /// Takes out what a large denominator and all numbers share, and gives the denominator that is left.
    pub fn reduce(&mut self, denominator: Frac) -> Option<Frac>
        requires apart { denominator ≢ zero_ℚ }
        ensures same { IfSome result (λ left. IsSameOver denominator self.old left self.new) }
        ensures places { length self.new ≡ length self.old }
    {
        self.reduce_from(LARGE, denominator)
    }

    /// The same, where a denominator of `least` or more is a large one.
    pub fn reduce_from(&mut self, least: u128, denominator: Frac) -> Option<Frac>
        requires apart { denominator ≢ zero_ℚ }
        ensures same { IfSome result (λ left. IsSameOver denominator self.old left self.new) }
        ensures places { length self.new ≡ length self.old }
    {
        let size = denominator.num().unsigned_abs();
        if size < least {
            return Some(denominator);
        }
        let factor = i128::try_from(shared(&self.numbers, &self.listed, size)).ok()?;
        if factor == 1 {
            return Some(denominator);
        }
        if factor < 1 {
            return None;
        }
        take_out(&mut self.numbers, &self.listed, factor)?;
        denominator.div(Frac::whole(factor)).ok()
    }

    /// Fills `out`, which is all 0, with the quotients of the numbers by a divisor.
    pub fn divide_into(&self, by: Frac, out: &mut [Frac]) -> Option<()>
        requires apart { by ≢ zero_ℚ }
        requires places { length out.old ≡ length self.now }
        requires zero { (k : ℕ) → 1 ≤ k → value_at out.old k ≡ zero_ℚ }
        ensures { IfSome result (λ _. AreQuotients by self.now out.new) }
    {
        divide_listed(&self.numbers, &self.listed, by, out)
    }
}
