//! Rows that are carried back in whole numbers over one denominator. Where a number doesn't fit, the answer is None, and the row has to
//! be computed another way.

ghost use Rattle.std.specs.Prelude.{◌≡◌, ◌≢◌, ◌+◌, ◌-◌, ◌≤◌, ◌<◌, ℕ, true, List, length, map, set, All, IfSome};
ghost use Rattle.exact_values.specs.Rational.{ℚ, whole, zero_ℚ, ◌+ℚ◌, ◌*ℚ◌, ◌/ℚ◌};
ghost use Rattle.lp_definitions.specs.LinearProgram.{IsColumn, IsVariable, Vector, column, size, value_at};
ghost use Rattle.lp_definitions.specs.Basis.{IsBasic};
ghost use Rattle.lp_definitions.specs.RatesEvidence.{sum_from};
ghost use Rattle.lp_model.specs.RatesCalls.{IsRowOf};
ghost use Rattle.lp_model.specs.Wanted.{meets, wanted_at, IsLeastWanted, IsFirstWanted};
ghost use Rattle.whole_vectors.specs.Quotients.{AreProducts, IsSameOver, Represent};
ghost use Rattle.eta_file.specs.Entries.{IsEntryWithin};
ghost use Rattle.eta_file.specs.WordColumns.{fraction_entry};
ghost use Rattle.price_row.specs.Sums.{weighted, products};
ghost use Rattle.price_row.specs.Places.{IsRowPlace, IsWordPlace};
ghost use Rattle.price_row.specs.Known.{IsKnown, IsUnit, HasMultipliers, IsRateOf};
ghost use Rattle.price_row.specs.RateNumbers.{IsNumberAt, up_over};

use crate::{Sought, is_wanted_at};
use eta_file::{EtaEntry, EtaFile, ScaledEta, WordEntry};
use frac128::Frac;
use lp_model::{Entry, Wanted};
use whole_vectors::{product, terms};

/// A whole number for each variable.
pub trait Numbers {
    type Number: Copy;

    /// A number as a fraction.
    ghost fraction: { Self.Number → ℚ };

    /// What holds of each number.
    ghost is_sound: { Self.Number → Type 0 };

    /// The numbers, as fractions.
    ghost fractions: { Self → List ℚ };

    /// The number 0.
    fn zero() -> Self::Number
        ensures value { fraction result ≡ zero_ℚ }
        ensures sound { is_sound result };

    /// Whether a number is 0.
    fn is_zero(n: Self::Number) -> bool
        ensures { result ≡ true → fraction n ≡ zero_ℚ };

    /// The whole number that a fraction is, where it is one.
    fn whole_number(x: Frac) -> Option<Self::Number>
        ensures value { IfSome result (λ n. fraction n ≡ x) }
        ensures sound { IfSome result is_sound };

    /// A number as a fraction.
    fn as_fraction(n: Self::Number) -> Frac
        requires sound { is_sound n }
        ensures { result ≡ fraction n };

    /// The number at the variable `k`.
    fn number_at(numbers: &[Self::Number], k: u32) -> Self::Number
        requires low { 1 ≤ k }
        requires high { k ≤ length numbers.now }
        requires sound { All is_sound numbers.now }
        ensures value { fraction result ≡ value_at (map fraction numbers.now) k }
        ensures sound { is_sound result };

    /// The sum, with one product more. Nothing is made of 0.
    fn plus(sum: Self::Number, x: Self::Number, y: Frac) -> Option<Self::Number>
        requires sound { is_sound sum }
        ensures value { IfSome result (λ next. fraction next ≡ fraction sum +ℚ fraction x *ℚ y) }
        ensures sound { IfSome result is_sound };

    /// The sum, with one product by a machine word more. Nothing is made of 0.
    fn plus_word(sum: Self::Number, x: Self::Number, y: i64) -> Option<Self::Number>
        requires sound { is_sound sum }
        ensures value { IfSome result
            (λ next. fraction next ≡ fraction sum +ℚ fraction x *ℚ whole y) }
        ensures sound { IfSome result is_sound };

    /// A number over a divisor.
    fn over(n: Self::Number, by: Frac) -> Option<Frac>
        requires apart { by ≢ zero_ℚ }
        requires sound { is_sound n }
        ensures value { IfSome result (λ quotient. quotient ≡ fraction n /ℚ by) };

    /// The numbers of all variables.
    fn all(&self) -> &[Self::Number]
        ensures numbers { map fraction result.now ≡ fractions self.now }
        ensures places { length result.now ≡ length (fractions self.now) }
        ensures sound { All is_sound result.now };

    /// Makes the number of the variable `i` 1, and all others 0.
    fn begin(&mut self, i: u32) -> Option<()>
        requires low { 1 ≤ i }
        requires high { i ≤ length (fractions self.old) }
        ensures unit { IfSome result (λ _. IsUnit i (fractions self.new)) }
        ensures places { length (fractions self.new) ≡ length (fractions self.old) };

    /// Makes `n` the number of the variable `k`.
    fn write(&mut self, k: u32, n: Self::Number) -> Option<()>
        requires low { 1 ≤ k }
        requires high { k ≤ length (fractions self.old) }
        requires sound { is_sound n }
        ensures number { IfSome result (λ _. fractions self.new ≡ set (fractions self.old) (k - 1)
            (fraction n)) }
        ensures places { length (fractions self.new) ≡ length (fractions self.old) };

    /// Makes each number its product with a factor.
    fn multiply_by(&mut self, by: Frac) -> Option<()>
        ensures products { IfSome result (λ _. AreProducts by (fractions self.old)
            (fractions self.new)) }
        ensures places { length (fractions self.new) ≡ length (fractions self.old) };

    /// Takes out what a large denominator and all numbers share, and gives the denominator that is left.
    fn reduce_over(&mut self, denominator: Frac) -> Option<Frac>
        requires apart { denominator ≢ zero_ℚ }
        ensures same { IfSome result (λ left. IsSameOver denominator (fractions self.old) left
            (fractions self.new)) }
        ensures places { length (fractions self.new) ≡ length (fractions self.old) };
}

/// The sum of the entries, each times the number there, begun with `first`. An entry at a number of 0 adds nothing.
#[inline(always)]
fn sum_of_entries<N: Numbers>(
    entries: &[EtaEntry],
    first: N::Number,
    numbers: &[N::Number],
) -> Option<N::Number>
    requires within { All (IsEntryWithin (length numbers.now)) entries.now }
    requires numbers { All N.is_sound numbers.now }
    requires first { N.is_sound first }
    ensures value { IfSome result
        (λ sum. (p : ℕ) → value_at (map N.fraction numbers.now) p ≡ zero_ℚ →
        N.fraction sum ≡ sum_from (N.fraction first) (weighted p (map N.fraction numbers.now)
        entries.now)) }
    ensures sound { IfSome result N.is_sound }
{
    let mut sum = first;
    for entry in entries {
        let number = N::number_at(numbers, entry.i);
        if N::is_zero(number) {
            continue;
        }
        sum = N::plus(sum, number, entry.rate.as_whole()?)?;
    }
    Some(sum)
}

/// The sum of the numbers of a column of the deck, each times the number at its row.
#[inline(always)]
fn sum_of_column<N: Numbers>(column: &[Entry], numbers: &[N::Number]) -> Option<N::Number>
    requires within { All (IsRowPlace (length numbers.now)) column.now }
    requires numbers { All N.is_sound numbers.now }
    ensures value { IfSome result (λ sum. N.fraction sum ≡ sum_from zero_ℚ (products
        (map N.fraction numbers.now) column.now)) }
    ensures sound { IfSome result N.is_sound }
{
    let mut sum = N::zero();
    for entry in column {
        let number = N::number_at(numbers, entry.row);
        sum = N::plus(sum, number, entry.value)?;
    }
    Some(sum)
}

/// The sum of the numbers of a column in machine words, each times the number at its row.
#[inline(always)]
fn sum_of_words<N: Numbers>(words: &[WordEntry], numbers: &[N::Number]) -> Option<N::Number>
    requires within { All (IsWordPlace (length numbers.now)) words.now }
    requires numbers { All N.is_sound numbers.now }
    ensures value { IfSome result (λ sum. N.fraction sum ≡ sum_from zero_ℚ (products
        (map N.fraction numbers.now) (map fraction_entry words.now))) }
    ensures sound { IfSome result N.is_sound }
{
    let mut sum = N::zero();
    for entry in words {
        let number = N::number_at(numbers, entry.row);
        sum = N::plus_word(sum, number, entry.value)?;
    }
    Some(sum)
}

/// The sum of the numbers of column `j` of the deck, each times the number at its row.
#[inline(always)]
fn sum_at_column<N: Numbers>(file: &EtaFile, j: u32, numbers: &[N::Number]) -> Option<N::Number>
    requires column { IsColumn file.now.matrix j }
    requires places { length numbers.now ≡ size file.now.matrix }
    requires numbers { All N.is_sound numbers.now }
    ensures value { IfSome result (λ sum. N.fraction sum ≡ sum_from zero_ℚ (products
        (map N.fraction numbers.now) (column file.now.matrix j))) }
    ensures sound { IfSome result N.is_sound }
{
    let _size = file.size();
    match file.words(j) {
        Some(words) => sum_of_words::<N>(words, numbers),
        None => sum_of_column::<N>(file.numbers(j), numbers),
    }
}

/// The number of `q` times the scale, and the entries, each times the number there, in all. An entry at a number of 0 adds nothing.
#[inline(always)]
fn sum_over_eta<N: Numbers>(
    q: u32,
    whole: &ScaledEta<'_>,
    numbers: &[N::Number],
) -> Option<N::Number>
    requires low { 1 ≤ q }
    requires high { q ≤ length numbers.now }
    requires numbers { All N.is_sound numbers.now }
    requires within { All (IsEntryWithin (length numbers.now)) whole.now.entries.now }
    ensures value { IfSome result
        (λ sum. (p : ℕ) → value_at (map N.fraction numbers.now) p ≡ zero_ℚ →
        N.fraction sum ≡ sum_from (value_at (map N.fraction numbers.now) q *ℚ whole.now.scale)
        (weighted p (map N.fraction numbers.now) whole.now.entries.now)) }
    ensures sound { IfSome result N.is_sound }
{
    let lead = N::number_at(numbers, q);
    let first = N::plus(N::zero(), lead, whole.scale)?;
    sum_of_entries::<N>(whole.entries, first, numbers)
}

/// Carries the numbers of the multipliers of the row back over one eta, and gives their denominator before it.
fn carry_back_numbers<N: Numbers>(
    file: &EtaFile,
    place: u32,
    row: u32,
    denominator: Frac,
    out: &mut N,
) -> Option<Frac>
    requires within { place < length file.now.etas }
    requires basic { IsBasic file.now.matrix file.now.basics row }
    requires places { length (N.fractions out.old) ≡ size file.now.matrix }
    requires known { Represent
        (IsKnown file.now (place + 1) row) denominator (N.fractions out.old) }
    ensures known { IfSome result (λ d. Represent (IsKnown file.now place row) d
        (N.fractions out.new)) }
    ensures places { length (N.fractions out.new) ≡ length (N.fractions out.old) }
{
    let _size = file.size();
    let _etas = file.etas();
    let eta = file.eta(place + 1);
    let Some(whole) = file.whole(place + 1) else {
        return None;
    };
    out.write(eta.p, N::zero())?;
    let sum = sum_over_eta::<N>(eta.q, &whole, out.all())?;
    if N::is_zero(sum) {
        return Some(denominator);
    }
    let ratio = N::over(sum, whole.pivot)?;
    let (number, by) = terms(ratio);
    out.multiply_by(by)?;
    let made = N::whole_number(number.neg())?;
    out.write(eta.p, made)?;
    let denominator = product(denominator, by)?;
    out.reduce_over(denominator)
}

/// Fills the first places of `out` with the numbers of the multipliers of the rows, and gives their denominator.
fn multipliers_in_numbers<N: Numbers>(file: &EtaFile, row: u32, out: &mut N) -> Option<Frac>
    requires basic { IsBasic file.now.matrix file.now.basics row }
    requires places { length (N.fractions out.old) ≡ size file.now.matrix }
    ensures known { IfSome result (λ d. Represent (HasMultipliers file.now
        (size file.now.matrix) row) d (N.fractions out.new)) }
    ensures places { length (N.fractions out.new) ≡ length (N.fractions out.old) }
{
    let _size = file.size();
    out.begin(row)?;
    let mut denominator = Frac::whole(1);
    let etas = file.etas();
    for back in 0..etas {
        denominator = carry_back_numbers(file, etas - 1 - back, row, denominator, out)?;
    }
    Some(denominator)
}

/// The number of the rate at the nonbasic of a place, over the denominator of the multipliers of the rows.
#[inline(always)]
fn number_of_rate<N: Numbers>(
    file: &EtaFile,
    place: u32,
    numbers: &[N::Number],
) -> Option<N::Number>
    requires within { place < size file.now.matrix }
    requires places { length numbers.now ≡ size file.now.matrix }
    requires sound { All N.is_sound numbers.now }
    ensures value { IfSome result (λ n. IsNumberAt file.now (place + 1) (map N.fraction numbers.now)
        (N.fraction n)) }
    ensures sound { IfSome result N.is_sound }
{
    let _size = file.size();
    let rows = file.rows();
    if place < rows {
        return N::plus_word(N::zero(), N::number_at(numbers, place + 1), -1);
    }
    sum_at_column::<N>(file, place + 1 - rows, numbers)
}

/// The rate of the row at the variable of a place, from the numbers of the multipliers of the rows.
#[inline(always)]
fn rate_by_numbers<N: Numbers>(
    file: &EtaFile,
    place: u32,
    row: u32,
    denominator: Frac,
    numbers: &[N::Number],
) -> Option<Frac>
    requires within { place < size file.now.matrix }
    requires basic { IsBasic file.now.matrix file.now.basics row }
    requires places { length numbers.now ≡ size file.now.matrix }
    requires sound { All N.is_sound numbers.now }
    requires known { Represent (HasMultipliers file.now (size file.now.matrix) row)
        denominator (map N.fraction numbers.now) }
    ensures { IfSome result (IsRateOf file.now row (place + 1)) }
{
    let _size = file.size();
    if file.is_basic(place + 1) {
        return Some(Frac::whole(0));
    }
    let number = number_of_rate::<N>(file, place, numbers)?;
    N::over(number, denominator)
}

/// What `up` is for the numbers of rates over a denominator: one below 0 turns their signs.
#[inline(always)]
pub fn is_up_over(up: bool, denominator: Frac) -> bool
    ensures { result ≡ up_over up denominator }
{
    up == (denominator.sign() > 0)
}

/// Whether no rate is wanted at the variable of a place.
#[inline(always)]
fn is_nothing_wanted(wanted: &[Wanted], place: u32) -> bool
    requires { place < length wanted.now }
    ensures { result ≡ true → wanted_at wanted.now (place + 1) ≡ Wanted.Nothing }
{
    wanted[place as usize] == Wanted::Nothing
}

/// Whether the rate at a place is wanted, by the sign of its number: nothing is divided. `up` is that for numbers over the denominator.
#[inline(always)]
fn is_wanted_by_numbers<N: Numbers>(
    file: &EtaFile,
    place: u32,
    sought: &Sought<'_>,
    up: bool,
    numbers: &[N::Number],
) -> Option<bool>
    requires within { place < size file.now.matrix }
    requires basic { IsBasic file.now.matrix file.now.basics sought.now.row }
    requires number_places { length numbers.now ≡ size file.now.matrix }
    requires wanted_places { length sought.now.wanted.now ≡ size file.now.matrix }
    requires sound { All N.is_sound numbers.now }
    ensures { IfSome result (λ met. (denominator : ℚ) → Represent (HasMultipliers file.now
        (size file.now.matrix) sought.now.row) denominator (map N.fraction numbers.now) →
        up ≡ up_over sought.now.up denominator → (rates : Vector) → IsRowOf file.now.matrix
        file.now.basics sought.now.row rates → met ≡ meets sought.now.wanted.now sought.now.up rates
        (place + 1)) }
{
    let _size = file.size();
    if is_nothing_wanted(sought.wanted, place) || file.is_basic(place + 1) {
        return Some(false);
    }
    let number = number_of_rate::<N>(file, place, numbers)?;
    Some(is_wanted_at(sought.wanted, place, up, N::as_fraction(number)))
}

/// The least-numbered variable whose rate is wanted, if there is one.
fn first_by_signs<N: Numbers>(
    file: &EtaFile,
    sought: &Sought<'_>,
    numbers: &[N::Number],
    denominator: Frac,
) -> Option<Option<u32>>
    requires basic { IsBasic file.now.matrix file.now.basics sought.now.row }
    requires number_places { length numbers.now ≡ size file.now.matrix }
    requires wanted_places { length sought.now.wanted.now ≡ size file.now.matrix }
    requires sound { All N.is_sound numbers.now }
    requires known { Represent (HasMultipliers file.now (size file.now.matrix) sought.now.row)
        denominator (map N.fraction numbers.now) }
    ensures least { IfSome result (λ found. (rates : Vector) → IsRowOf file.now.matrix
        file.now.basics sought.now.row rates → IsLeastWanted sought.now.wanted.now sought.now.up
        rates found) }
    ensures variable { IfSome result (λ found. IfSome found (IsVariable file.now.matrix)) }
{
    let up = is_up_over(sought.up, denominator);
    for place in 0..file.size() {
        let wanted = is_wanted_by_numbers::<N>(file, place, sought, up, numbers)?;
        if wanted {
            return Some(Some(place + 1));
        }
    }
    Some(None)
}

/// Fills in the rate of the first variable whose rate is wanted, or where there is none all rates, from the numbers of the multipliers
/// of the rows.
fn fill_to_wanted_by_numbers<N: Numbers>(
    file: &EtaFile,
    sought: &Sought<'_>,
    numbers: &[N::Number],
    denominator: Frac,
    out: &mut [Frac],
) -> Option<Option<u32>>
    requires basic { IsBasic file.now.matrix file.now.basics sought.now.row }
    requires number_places { length numbers.now ≡ size file.now.matrix }
    requires wanted_places { length sought.now.wanted.now ≡ size file.now.matrix }
    requires places { length out.old ≡ size file.now.matrix }
    requires sound { All N.is_sound numbers.now }
    requires known { Represent (HasMultipliers file.now (size file.now.matrix) sought.now.row)
        denominator (map N.fraction numbers.now) }
    ensures { IfSome result (IsFirstWanted file.now.matrix file.now.basics sought.now.row
        sought.now.wanted.now sought.now.up (value_at out.new)) }
{
    let _size = file.size();
    let found = first_by_signs::<N>(file, sought, numbers, denominator)?;
    match found {
        Some(k) => {
            let rate = rate_by_numbers::<N>(file, k - 1, sought.row, denominator, numbers)?;
            out[k as usize - 1] = rate;
            Some(Some(k))
        }
        None => {
            fill_by_numbers::<N>(file, sought.row, numbers, denominator, out)?;
            Some(None)
        }
    }
}

/// The least-numbered variable whose rate in the row, or the opposite of it where `up` is false, is wanted there. `out` takes its rate,
/// or where there is none the row, and `numbers` takes those of the multipliers of the rows.
pub fn first_by_numbers<N: Numbers>(
    file: &EtaFile,
    sought: &Sought<'_>,
    numbers: &mut N,
    out: &mut [Frac],
) -> Option<Option<u32>>
    requires basic { IsBasic file.now.matrix file.now.basics sought.now.row }
    requires number_places { length (N.fractions numbers.old) ≡ size file.now.matrix }
    requires wanted_places { length sought.now.wanted.now ≡ size file.now.matrix }
    requires places { length out.old ≡ size file.now.matrix }
    ensures found { IfSome result (IsFirstWanted file.now.matrix file.now.basics sought.now.row
        sought.now.wanted.now sought.now.up (value_at out.new)) }
    ensures number_places { length (N.fractions numbers.new) ≡ length (N.fractions numbers.old) }
{
    let denominator = multipliers_in_numbers(file, sought.row, numbers)?;
    fill_to_wanted_by_numbers::<N>(file, sought, numbers.all(), denominator, out)
}

/// Fills in the rates from the numbers of the multipliers of the rows.
fn fill_by_numbers<N: Numbers>(
    file: &EtaFile,
    row: u32,
    numbers: &[N::Number],
    denominator: Frac,
    out: &mut [Frac],
) -> Option<()>
    requires basic { IsBasic file.now.matrix file.now.basics row }
    requires number_places { length numbers.now ≡ size file.now.matrix }
    requires places { length out.old ≡ size file.now.matrix }
    requires sound { All N.is_sound numbers.now }
    requires known { Represent (HasMultipliers file.now (size file.now.matrix) row)
        denominator (map N.fraction numbers.now) }
    ensures { IfSome result (λ _. IsRowOf file.now.matrix file.now.basics row (value_at out.new)) }
{
    for place in 0..file.size() {
        out[place as usize] = rate_by_numbers::<N>(file, place, row, denominator, numbers)?;
    }
    Some(())
}

/// Fills `out` with the rates of the row, and `numbers` with those of the multipliers of the rows.
pub fn row_by_numbers<N: Numbers>(
    file: &EtaFile,
    row: u32,
    numbers: &mut N,
    out: &mut [Frac],
) -> Option<()>
    requires basic { IsBasic file.now.matrix file.now.basics row }
    requires number_places { length (N.fractions numbers.old) ≡ size file.now.matrix }
    requires places { length out.old ≡ size file.now.matrix }
    ensures rates { IfSome result
        (λ _. IsRowOf file.now.matrix file.now.basics row (value_at out.new)) }
    ensures number_places { length (N.fractions numbers.new) ≡ length (N.fractions numbers.old) }
{
    let denominator = multipliers_in_numbers(file, row, numbers)?;
    fill_by_numbers::<N>(file, row, numbers.all(), denominator, out)
}
