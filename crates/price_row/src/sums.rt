//! Sums of products that stop where an operation is refused.

ghost use Rattle.std.specs.Prelude.{◌≡◌, ◌≤◌, ◌<◌, length, All, IfOk, IfErr};
ghost use Rattle.exact_values.specs.Rational.{zero_ℚ, ◌+ℚ◌, ◌*ℚ◌};
ghost use Rattle.lp_definitions.specs.RatesEvidence.{sum_from};
ghost use Rattle.eta_file.specs.Entries.{IsEntryWithin};
ghost use Rattle.price_row.specs.Sums.{IsStepRefused, IsWeightedRefused, IsProductsRefused, weighted, products};
ghost use Rattle.price_row.specs.Places.{IsRowPlace};

use eta_file::EtaEntry;
use frac128::{Frac, Refused};
use lp_model::Entry;

/// The sum, with one product more.
fn plainly_added(sum: Frac, x: Frac, y: Frac) -> Result<Frac, Refused>
    ensures value { IfOk result (λ next. next ≡ sum +ℚ x *ℚ y) }
    ensures refused { IfErr result (IsStepRefused sum x y) }
{
    let product = x.mul(y)?;
    sum.add(product)
}

/// The same, from the product's parts where the product or the sum doesn't fit.
fn product_added(sum: Frac, x: Frac, y: Frac) -> Result<Frac, Refused>
    ensures value { IfOk result (λ next. next ≡ sum +ℚ x *ℚ y) }
    ensures refused { IfErr result (IsStepRefused sum x y) }
{
    match sum.sub_product(x.neg(), y) {
        Some(next) => Ok(next),
        None => plainly_added(sum, x, y),
    }
}

/// The same. Most values of a row are 0, and nothing is made of these.
#[inline(always)]
fn added(sum: Frac, x: Frac, y: Frac) -> Result<Frac, Refused>
    ensures value { IfOk result (λ next. next ≡ sum +ℚ x *ℚ y) }
    ensures refused { IfErr result (IsStepRefused sum x y) }
{
    if x.is_zero() {
        return Ok(sum);
    }
    product_added(sum, x, y)
}

/// The sum of the rates at the entries but that of `p`, each times the value there, begun with `first`.
pub fn sum_over(entries: &[EtaEntry], p: u32, first: Frac, values: &[Frac]) -> Result<Frac, Refused>
    requires { All (IsEntryWithin (length values.now)) entries.now }
    ensures value { IfOk result (λ sum. sum ≡ sum_from first (weighted p values.now entries.now)) }
    ensures refused { IfErr result (IsWeightedRefused p first values.now entries.now) }
{
    let mut sum = first;
    for entry in entries {
        if entry.i != p {
            sum = added(sum, values[entry.i as usize - 1], entry.rate.reduced())?;
        }
    }
    Ok(sum)
}

/// The sum of the numbers of a column, each times the value at its row.
pub fn sum_of_column(column: &[Entry], values: &[Frac]) -> Result<Frac, Refused>
    requires { All (IsRowPlace (length values.now)) column.now }
    ensures value { IfOk result (λ sum. sum ≡ sum_from zero_ℚ (products values.now column.now)) }
    ensures refused { IfErr result (IsProductsRefused values.now column.now) }
{
    let mut sum = Frac::whole(0);
    for entry in column {
        sum = added(sum, values[entry.row as usize - 1], entry.value)?;
    }
    Ok(sum)
}
