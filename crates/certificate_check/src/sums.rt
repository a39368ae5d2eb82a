//! Sums of products, each made from the left.

ghost use Rattle.std.specs.Prelude.{◌≡◌, ◌+◌, ◌≤◌, [], ◌∷◌, All, length, unwrap_or};
ghost use Rattle.exact_values.specs.Rational.{zero_ℚ, ◌-ℚ◌};
ghost use Rattle.lp_definitions.specs.LinearProgram.{IsRow, IsColumn, on_row, entry, size, value_at, combined, objective_value};
ghost use Rattle.check_definitions.specs.Steps.{operation};
ghost use Rattle.check_definitions.specs.Checks.{row_products, entry_products, combined_steps};
ghost use Rattle.certificate_check.specs.Listed.{AreListed};
ghost use Rattle.certificate_check.specs.Results.{Gives, SumsTo};

use frac128::{Frac, Op, Refused};
use lp_model::{Entry, Lp};

/// The value of variable `k`, from 1.
#[inline(always)]
pub fn value_of(values: &[Frac], k: u32) -> Frac
    requires low { 1 ≤ k }
    requires high { k ≤ length values.now }
    ensures { result ≡ value_at values.now k }
{
    values[k as usize - 1]
}

/// `sum + x * y`
pub fn add_product(sum: Frac, x: Frac, y: Frac) -> Result<Frac, Refused>
    ensures { SumsTo result sum (record { left = x; right = y } ∷ []) }
{
    let product = x.mul(y)?;
    sum.add(product)
}

/// `x - y`
pub fn subtract(x: Frac, y: Frac) -> Result<Frac, Refused>
    ensures { Gives result (operation Op.Sub x y ∷ []) (x -ℚ y) }
{
    x.sub(y)
}

/// The number on the row, if the column has one.
#[inline(always)]
fn number_on(column: &[Entry], row: u32) -> Option<Frac>
    ensures { unwrap_or result zero_ℚ ≡ on_row column.now row }
{
    for entry in column {
        if entry.row == row {
            return Some(entry.value);
        }
    }
    None
}

/// `sum`, and the number on the row in a column, if there is one, times the column's value.
#[inline(always)]
fn add_entry(sum: Frac, lp: &Lp, values: &[Frac], column: u32, row: u32) -> Result<Frac, Refused>
    requires column { IsColumn lp.now.matrix column }
    requires places { length values.now ≡ size lp.now.matrix }
    ensures { SumsTo result sum (record {
      left = entry lp.now.matrix row column;
      right = value_at values.now (lp.now.rows + column);
    } ∷ []) }
{
    match number_on(lp.column(column), row) {
        Some(number) => add_product(sum, number, value_of(values, lp.rows + column)),
        None => Ok(sum),
    }
}

/// The sum of the numbers on the row, each times the value of its column. Of the columns up to `last` those that aren't listed are left out,
/// and of those after it the ones whose values are 0: a product with an operand 0 is never refused, nor is adding it.
pub fn row_sum(
    lp: &Lp,
    values: &[Frac],
    listed: &[u32],
    last: u32,
    row: u32,
) -> Result<Frac, Refused>
    requires row { IsRow lp.now.matrix row }
    requires places { length values.now ≡ size lp.now.matrix }
    requires last { last ≤ lp.now.cols }
    requires listed { AreListed (λ j. value_at values.now (lp.now.rows + j)) 0 listed.now last }
    ensures { SumsTo result zero_ℚ (row_products lp.now (value_at values.now) row) }
{
    let mut sum = Frac::whole(0);
    for column in listed {
        sum = add_entry(sum, lp, values, *column, row)?;
    }
    for (place, value) in values[(lp.rows + last) as usize..].iter().enumerate() {
        if value.is_zero() {
            continue;
        }
        sum = add_entry(sum, lp, values, last + place as u32 + 1, row)?;
    }
    Ok(sum)
}

/// The column's number on the objective row, and theta times its number on the change row if there is one.
pub fn combined_cost(lp: &Lp, column: &[Entry]) -> Result<Frac, Refused>
    ensures { Gives result (combined_steps lp.now (λ i. on_row column.now i))
        (combined lp.now (λ i. on_row column.now i)) }
{
    let cost = number_on(column, lp.objective).unwrap_or(Frac::whole(0));
    match lp.change {
        None => Ok(cost),
        Some(change) => {
            let number = number_on(column, change.row).unwrap_or(Frac::whole(0));
            add_product(cost, change.theta, number)
        }
    }
}

/// The value at the objective row, and theta times the value at the change row if there is one.
pub fn objective(lp: &Lp, values: &[Frac]) -> Result<Frac, Refused>
    requires { length values.now ≡ size lp.now.matrix }
    ensures { Gives result (combined_steps lp.now (value_at values.now))
        (objective_value lp.now (value_at values.now)) }
{
    let value = value_of(values, lp.objective);
    match lp.change {
        None => Ok(value),
        Some(change) => add_product(value, change.theta, value_of(values, change.row)),
    }
}

/// The start, and the numbers of a column in order, each with the value of its row before it.
pub fn column_sum(start: Frac, column: &[Entry], values: &[Frac]) -> Result<Frac, Refused>
    requires { All (λ e. (1 ≤ e.row) × (e.row ≤ length values.now)) column.now }
    ensures { SumsTo result start (entry_products (value_at values.now) column.now) }
{
    let mut sum = start;
    for entry in column {
        sum = add_product(sum, value_of(values, entry.row), entry.value)?;
    }
    Ok(sum)
}
