//! The rates of a row at columns as whole numbers over one denominator. That, and the numbers of the multipliers over it, are taken over
//! from one column to the next as long as they serve, so that mostly nothing is divided and no greatest common divisor is computed. Where
//! a number doesn't fit, the answer is None.

ghost use Rattle.std.specs.Prelude.{◌≡◌, ◌≢◌, ◌+◌, ◌≤◌, ◌<◌, ◌*ℤ◌, ◌≤ℤ◌, pos, List, length, All, IfSome};
ghost use Rattle.exact_values.specs.Rational.{ℚ, whole, zero_ℚ, ◌+ℚ◌, ◌*ℚ◌, ◌/ℚ◌};
ghost use Rattle.frac128.specs.Terms.{Fits};
ghost use Rattle.lp_definitions.specs.LinearProgram.{size, value_at};
ghost use Rattle.lp_definitions.specs.Basis.{IsBasic};
ghost use Rattle.lp_definitions.specs.RatesEvidence.{sum_from};
ghost use Rattle.price_row.specs.Known.{HasMultipliers, IsRateOf};
ghost use Rattle.price_row.specs.NumbersOver.{AreNumbersOver};
ghost use Rattle.price_row.specs.Places.{IsRowPlace};
ghost use Rattle.price_row.specs.Sums.{products};

use eta_file::EtaFile;
use frac128::{Frac, product, sum};
use lp_model::Entry;
use whole_vectors::{SparseWholes, common_multiple, whole_at, whole_number, whole_quotient};

/// How often a number has a factor, where it is a multiple of it.
fn times_of(n: i128, factor: i128) -> Option<i128>
    requires at_least_one { pos 1 ≤ℤ factor }
    requires fits { Fits n }
    ensures value { IfSome result (λ times. n ≡ times *ℤ factor) }
    ensures fits { IfSome result Fits }
{
    if factor == 1 {
        return Some(n);
    }
    let times = n / factor;
    if product(times, factor)? == n {
        Some(times)
    } else {
        None
    }
}

/// The product with a multiple of the denominator.
fn whole_product(x: Frac, multiple: i128) -> Option<i128>
    requires { Fits multiple }
    ensures value { IfSome result (λ n. whole n ≡ x *ℚ whole multiple) }
    ensures fits { IfSome result Fits }
{
    let times = times_of(multiple, x.den())?;
    product(x.num(), times)
}

/// Keeps the number of the value at a row. Where there is no memory for that, none is kept.
fn keep(numbers: &mut SparseWholes, row: u32, number: i128)
    requires low { 1 ≤ row }
    requires high { row ≤ length numbers.old }
    requires fits { Fits number }
    ensures { (d : ℚ) (xs : List ℚ) → AreNumbersOver d xs numbers.old →
        whole number ≡ value_at xs row *ℚ
        d → AreNumbersOver d xs numbers.new }
{
    if numbers.put(row, number).is_some() {
        return;
    }
    numbers.clear();
}

/// The number of the value at a row over the denominator, which is kept.
#[inline(always)]
fn number_over(
    values: &[Frac],
    row: u32,
    numbers: &mut SparseWholes,
    denominator: Frac,
) -> Option<i128>
    requires low { 1 ≤ row }
    requires high { row ≤ length values.now }
    requires over { AreNumbersOver denominator values.now numbers.old }
    ensures value { IfSome result (λ n. whole n ≡ value_at values.now row *ℚ denominator) }
    ensures fits { IfSome result Fits }
    ensures over { AreNumbersOver denominator values.now numbers.new }
{
    let known = whole_at(numbers.numbers(), row);
    if known != 0 {
        return Some(known);
    }
    let value = values[row as usize - 1];
    if value.is_zero() {
        return Some(0);
    }
    let multiple = whole_number(denominator)?;
    let number = whole_product(value, multiple)?;
    keep(numbers, row, number);
    Some(number)
}

/// A sum that is a whole number, with the product of a number of the deck and a whole number more. Nothing is made of 0.
#[inline(always)]
fn added(total: i128, number: i128, y: Frac) -> Option<i128>
    requires total { Fits total }
    requires number { Fits number }
    ensures value { IfSome result (λ next. whole next ≡ whole total +ℚ y *ℚ whole number) }
    ensures fits { IfSome result Fits }
{
    if number == 0 {
        return Some(total);
    }
    let more = whole_product(y, number)?;
    sum(total, more)
}

/// The sum of the numbers of a column, each times the value at its row, as a whole number over the denominator.
fn sum_over_denominator(
    column: &[Entry],
    values: &[Frac],
    numbers: &mut SparseWholes,
    denominator: Frac,
) -> Option<i128>
    requires places { All (IsRowPlace (length values.now)) column.now }
    requires over { AreNumbersOver denominator values.now numbers.old }
    ensures value { IfSome result
        (λ n. whole n ≡ sum_from zero_ℚ (products values.now column.now) *ℚ
        denominator) }
    ensures fits { IfSome result Fits }
    ensures over { AreNumbersOver denominator values.now numbers.new }
{
    let mut total = 0;
    for entry in column {
        let number = number_over(values, entry.row, numbers, denominator)?;
        total = added(total, number, entry.value)?;
    }
    Some(total)
}

/// A common multiple of a denominator and the product of those of two factors.
fn multiple_with(denominator: Frac, x: Frac, y: Frac) -> Option<Frac>
    requires { denominator ≢ zero_ℚ }
    ensures { IfSome result (λ multiple. multiple ≢ zero_ℚ) }
{
    if x.is_zero() {
        return Some(denominator);
    }
    let unit = Frac::new(1, x.den()).mul(Frac::new(1, y.den())).ok()?;
    common_multiple(denominator, unit)
}

/// A common denominator of the numbers of a column, each times the value at its row.
fn common_denominator(column: &[Entry], values: &[Frac]) -> Option<Frac>
    requires { All (IsRowPlace (length values.now)) column.now }
    ensures { IfSome result (λ denominator. denominator ≢ zero_ℚ) }
{
    let mut denominator = Frac::whole(1);
    for entry in column {
        denominator = multiple_with(denominator, values[entry.row as usize - 1], entry.value)?;
    }
    Some(denominator)
}

/// The sum of the numbers of a column, each times the value at its row, as a whole number over the denominator, which is made anew where
/// the sum isn't one over it.
fn sum_as_number(
    column: &[Entry],
    values: &[Frac],
    numbers: &mut SparseWholes,
    denominator: &mut Frac,
) -> Option<i128>
    requires places { All (IsRowPlace (length values.now)) column.now }
    requires over { AreNumbersOver denominator.old values.now numbers.old }
    ensures value { IfSome result
        (λ n. whole n ≡ sum_from zero_ℚ (products values.now column.now) *ℚ
        denominator.new) }
    ensures fits { IfSome result Fits }
    ensures over { AreNumbersOver denominator.new values.now numbers.new }
{
    let number = sum_over_denominator(column, values, numbers, *denominator);
    if number.is_some() {
        return number;
    }
    let multiple = common_denominator(column, values)?;
    numbers.clear();
    *denominator = multiple;
    sum_over_denominator(column, values, numbers, multiple)
}

/// The number of the rate at the variable of a place over the denominator, where that is a nonbasic column.
pub fn column_number(
    file: &EtaFile,
    place: u32,
    row: u32,
    multipliers: &[Frac],
    numbers: &mut SparseWholes,
    denominator: &mut Frac,
) -> Option<i128>
    requires within { place < size file.now.matrix }
    requires basic { IsBasic file.now.matrix file.now.basics row }
    requires places { length multipliers.now ≡ size file.now.matrix }
    requires known { HasMultipliers file.now (place + 1) row multipliers.now }
    requires over { AreNumbersOver denominator.old multipliers.now numbers.old }
    ensures rate { IfSome result (λ n. IsRateOf file.now row (place + 1) (whole n /ℚ
        denominator.new)) }
    ensures fits { IfSome result Fits }
    ensures over { AreNumbersOver denominator.new multipliers.now numbers.new }
{
    let _size = file.size();
    let rows = file.rows();
    if place < rows {
        return None;
    }
    if file.is_basic(place + 1) {
        return None;
    }
    let column = file.numbers(place + 1 - rows);
    sum_as_number(column, multipliers, numbers, denominator)
}

/// The rate at the variable of a place by its number over the denominator, where that is a nonbasic column.
pub fn column_rate(
    file: &EtaFile,
    place: u32,
    row: u32,
    multipliers: &[Frac],
    numbers: &mut SparseWholes,
    denominator: &mut Frac,
) -> Option<Frac>
    requires within { place < size file.now.matrix }
    requires basic { IsBasic file.now.matrix file.now.basics row }
    requires places { length multipliers.now ≡ size file.now.matrix }
    requires known { HasMultipliers file.now (place + 1) row multipliers.now }
    requires over { AreNumbersOver denominator.old multipliers.now numbers.old }
    ensures rate { IfSome result (IsRateOf file.now row (place + 1)) }
    ensures over { AreNumbersOver denominator.new multipliers.now numbers.new }
{
    let number = column_number(file, place, row, multipliers, numbers, denominator)?;
    whole_quotient(number, *denominator)
}
