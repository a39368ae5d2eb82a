//! The same sums where an operation is refused, in numbers of any length.

ghost use Rattle.std.specs.Prelude.{◌≡◌, ◌≢◌, length, All, IfOk, IfSome};
ghost use Rattle.exact_values.specs.Rational.{zero_ℚ, ◌+ℚ◌, ◌*ℚ◌, ◌/ℚ◌};
ghost use Rattle.lp_definitions.specs.RatesEvidence.{sum_from};
ghost use Rattle.eta_file.specs.Entries.{IsEntryWithin};
ghost use Rattle.price_row.specs.Sums.{weighted, products};
ghost use Rattle.price_row.specs.Places.{IsRowPlace};

use eta_file::EtaEntry;
use exact_sums::Sum;
use frac128::Frac;
use lp_model::Entry;
use std::alloc::{AllocError, Global};

/// The sum, with one product more. Most values of a row are 0, and nothing is made of these.
fn exactly_added(alloc: Global, sum: Sum, x: Frac, y: Frac) -> Result<Sum, AllocError>
    ensures { IfOk result (λ next. next ≡ sum +ℚ x *ℚ y) }
{
    if x.is_zero() {
        return Ok(sum);
    }
    let mut next = sum;
    next.add_product(alloc, x, y)?;
    Ok(next)
}

/// The sum of the rates at the entries but that of `p`, each times the value there, begun with `first`.
fn long_sum_over(
    alloc: Global,
    entries: &[EtaEntry],
    p: u32,
    first: Frac,
    values: &[Frac],
) -> Result<Sum, AllocError>
    requires { All (IsEntryWithin (length values.now)) entries.now }
    ensures { IfOk result (λ sum. sum ≡ sum_from first (weighted p values.now entries.now)) }
{
    let mut sum = Sum::new(alloc, first)?;
    for entry in entries {
        if entry.i != p {
            sum = exactly_added(
                alloc,
                sum,
                values[entry.i as usize - 1],
                entry.rate.reduced(),
            )?;
        }
    }
    Ok(sum)
}

/// The sum of the numbers of a column, each times the value at its row.
fn long_sum_of_column(alloc: Global, column: &[Entry], values: &[Frac]) -> Result<Sum, AllocError>
    requires { All (IsRowPlace (length values.now)) column.now }
    ensures { IfOk result (λ sum. sum ≡ sum_from zero_ℚ (products values.now column.now)) }
{
    let mut sum = Sum::new(alloc, Frac::whole(0))?;
    for entry in column {
        sum = exactly_added(alloc, sum, values[entry.row as usize - 1], entry.value)?;
    }
    Ok(sum)
}

/// The quotient of the first of these sums by a pivot. None where it doesn't fit, or there is no memory for the numbers on the way.
pub fn exact_quotient_over(
    alloc: Global,
    entries: &[EtaEntry],
    p: u32,
    first: Frac,
    values: &[Frac],
    pivot: Frac,
) -> Option<Frac>
    requires within { All (IsEntryWithin (length values.now)) entries.now }
    requires pivot { pivot ≢ zero_ℚ }
    ensures { IfSome result (λ x. x ≡ sum_from first (weighted p values.now entries.now) /ℚ pivot) }
{
    let Ok(sum) = long_sum_over(alloc, entries, p, first, values) else {
        return None;
    };
    match sum.over(alloc, pivot) {
        Ok(quotient) => quotient,
        Err(_no_memory) => None,
    }
}

/// The second of these sums. None where it doesn't fit, or there is no memory for the numbers on the way.
pub fn exact_sum_of_column(alloc: Global, column: &[Entry], values: &[Frac]) -> Option<Frac>
    requires { All (IsRowPlace (length values.now)) column.now }
    ensures { IfSome result (λ x. x ≡ sum_from zero_ℚ (products values.now column.now)) }
{
    let Ok(sum) = long_sum_of_column(alloc, column, values) else {
        return None;
    };
    match sum.value(alloc) {
        Ok(sum) => sum,
        Err(_no_memory) => None,
    }
}
