// The equations of the rows.
ghost use Rattle.std.specs.Prelude.{◌≡◌, ◌≤◌, ◌+◌, ◌↔◌, ℕ, List, All, IsTrue, IfOk, length};
ghost use Rattle.exact_values.specs.Rational.{ℚ, whole, zero_ℚ, neg_ℚ, ◌+ℚ◌, ◌*ℚ◌};
ghost use Rattle.exact_values.specs.Tests.{eq_ℚ};
ghost use Rattle.lp_definitions.specs.LinearProgram.{IsRow, IsColumn, size, value_at, entry};
ghost use Rattle.check_definitions.specs.Steps.{AllHold, sum_of};
ghost use Rattle.check_definitions.specs.Checks.{row_products, equations};
ghost use Rattle.long_vectors.specs.Vectors.{IsOver};
ghost use Rattle.long_points.specs.Tests.{UpTo, rate_on, rates_on};

use exact_sums::Sum;
use frac128::Frac;
use integers::Integer;
use long_programs::top_of;
use long_vectors::Column;
use lp_definitions::Entry;
use lp_model::Lp;
use std::alloc::{AllocError, Global};

/// The whole number of column `j`.
pub fn column_top<'a>(lp: &Lp, column: &'a Column, j: u32) -> &'a Integer
    requires column { IsColumn lp.now.matrix j }
    requires places { length column.now.tops.items ≡ size lp.now.matrix }
    ensures { (values : List ℚ) → IsOver values column.now →
        whole result.now ≡ value_at values (lp.now.rows + j) *ℚ whole column.now.bottom }
{
    let _size = lp.number_of_variables();
    top_of(column, lp.rows + j)
}

// The opposite of a whole number.
fn opposite(alloc: Global, top: &Integer) -> Result<Sum, AllocError>
    ensures { IfOk result (λ sum. sum ≡ neg_ℚ (whole top.now)) }
{
    let mut sum = Sum::zero(alloc)?;
    sum.add(alloc, Frac::whole(-1), top)?;
    Ok(sum)
}

// The opposites of the values of the rows, times the denominator.
fn opposites(alloc: Global, lp: &Lp, column: &Column) -> Result<Vec<Sum>, AllocError>
    requires { length column.now.tops.items ≡ size lp.now.matrix }
    ensures counted { IfOk result (λ sums. length sums.items ≡ lp.now.matrix.rows) }
    ensures values { IfOk result
        (λ sums. (values : List ℚ) → IsOver values column.now → (i : ℕ) → IsRow lp.now.matrix i →
        value_at sums.items i ≡ neg_ℚ (value_at values i *ℚ whole column.now.bottom)) }
{
    let _size = lp.number_of_variables();
    let mut sums = Vec::new(alloc);
    for i in 0..lp.rows {
        let sum = opposite(alloc, top_of(column, i + 1))?;
        sums.push(sum)?;
    }
    Ok(sums)
}

// Adds the product of a number on a row.
fn add_number(
    alloc: Global,
    sums: &mut [Sum],
    row: u32,
    by: Frac,
    top: &Integer,
) -> Result<(), AllocError>
    requires first { 1 ≤ row }
    requires last { row ≤ length sums.old }
    ensures { IfOk result
        (λ done. (i : ℕ) → 1 ≤ i →
        value_at sums.new i ≡ value_at sums.old i +ℚ rate_on row by i *ℚ whole top.now) }
{
    let sum = &mut sums[row as usize - 1];
    sum.add(alloc, by, top)?;
    Ok(())
}

// Adds the products of the numbers of a column, each to the sum of its row.
fn add_numbers(
    alloc: Global,
    sums: &mut [Sum],
    entries: &[Entry],
    top: &Integer,
) -> Result<(), AllocError>
    requires { All (λ e. (1 ≤ e.row) × (e.row ≤ length sums.old)) entries.now }
    ensures { IfOk result
        (λ done. (i : ℕ) → 1 ≤ i →
        value_at sums.new i ≡ value_at sums.old i +ℚ rates_on entries.now i *ℚ whole top.now) }
{
    for entry in entries {
        add_number(alloc, sums, entry.row, entry.value, top)?;
    }
    Ok(())
}

// Adds the numbers of column `j`, times the value of the column.
fn add_column(
    alloc: Global,
    sums: &mut [Sum],
    lp: &Lp,
    column: &Column,
    j: u32,
) -> Result<(), AllocError>
    requires column { IsColumn lp.now.matrix j }
    requires places { length column.now.tops.items ≡ size lp.now.matrix }
    requires rows { length sums.old ≡ lp.now.matrix.rows }
    ensures { IfOk result (λ done. (values : List ℚ) → IsOver values column.now → (i : ℕ) → 1 ≤ i →
        value_at sums.new i ≡ value_at sums.old i +ℚ entry lp.now.matrix i j *ℚ value_at values
        (lp.now.rows + j) *ℚ whole column.now.bottom) }
{
    let _size = lp.number_of_variables();
    let top = column_top(lp, column, j);
    if top.size().is_zero() {
        return Ok(());
    }
    add_numbers(alloc, sums, lp.column(j), top)?;
    Ok(())
}

// Adds the sum of each row, times the denominator.
fn add_columns(alloc: Global, sums: &mut [Sum], lp: &Lp, column: &Column) -> Result<(), AllocError>
    requires places { length column.now.tops.items ≡ size lp.now.matrix }
    requires rows { length sums.old ≡ lp.now.matrix.rows }
    ensures { IfOk result (λ done. (values : List ℚ) → IsOver values column.now → (i : ℕ) → 1 ≤ i →
        value_at sums.new i ≡ value_at sums.old i +ℚ sum_of zero_ℚ
        (row_products lp.now (value_at values) i) *ℚ whole column.now.bottom) }
{
    for j in 0..lp.cols {
        add_column(alloc, sums, lp, column, j + 1)?;
    }
    Ok(())
}

// Whether sum `i`, from 1, is 0.
fn is_zero_at(sums: &[Sum], i: u32) -> bool
    requires first { 1 ≤ i }
    requires last { i ≤ length sums.now }
    ensures { result ≡ eq_ℚ (value_at sums.now i) zero_ℚ }
{
    sums[i as usize - 1].sign().is_eq()
}

// Whether so many sums are 0.
fn are_zero(sums: &[Sum], count: u32) -> bool
    requires { count ≤ length sums.now }
    ensures { IsTrue result ↔ UpTo (λ i. eq_ℚ (value_at sums.now i) zero_ℚ) count }
{
    for i in 0..count {
        let is_zero = is_zero_at(sums, i + 1);
        if !is_zero {
            return false;
        }
    }
    true
}

// Whether the equations hold, where the sums are still the opposites of the values of the rows.
fn sums_vanish(
    alloc: Global,
    sums: &mut [Sum],
    lp: &Lp,
    column: &Column,
) -> Result<bool, AllocError>
    requires places { length column.now.tops.items ≡ size lp.now.matrix }
    requires rows { length sums.old ≡ lp.now.matrix.rows }
    ensures { IfOk result (λ holds. (values : List ℚ) → IsOver values column.now → (part : ℕ) →
        ((i : ℕ) → IsRow lp.now.matrix i →
        value_at sums.old i ≡ neg_ℚ (value_at values i *ℚ whole column.now.bottom)) →
        IsTrue holds ↔ AllHold (equations lp.now part (value_at values))) }
{
    add_columns(alloc, sums, lp, column)?;
    Ok(are_zero(sums, lp.rows))
}

/// Whether a vector keeps the equations of the rows.
pub fn equations_hold(alloc: Global, lp: &Lp, column: &Column) -> Result<bool, AllocError>
    requires { length column.now.tops.items ≡ size lp.now.matrix }
    ensures { IfOk result (λ holds. (values : List ℚ) → IsOver values column.now → (part : ℕ) →
        IsTrue holds ↔ AllHold (equations lp.now part (value_at values))) }
{
    let mut sums = opposites(alloc, lp, column)?;
    let holds = sums_vanish(alloc, &mut sums, lp, column)?;
    Ok(holds)
}
