// The numbers of a claim, in fractions of 128 bits.
ghost use Rattle.std.specs.Prelude.{◌≡◌, IfOk, OkIff};
ghost use Rattle.frac128.specs.Operations.{TermsFit};
ghost use Rattle.checks_of_128_bits.specs.Fractions.{AreFractions};

use frac128::Frac;
use listing_claims::{Columns, Pair};
use listing_words::Number;
use lp_model::NoMemory;
use std::alloc::Global;

/// A point, and a direction in which it goes on.
#[derive(Drop)]
pub struct FractionPair {
    pub point: Vec<Frac>,
    pub direction: Vec<Frac>,
}

/// The lines of an interval: the values and the prices of the variables, with their rates.
#[derive(Drop)]
pub struct FractionColumns {
    pub value: Vec<Frac>,
    pub value_rate: Vec<Frac>,
    pub price: Vec<Frac>,
    pub price_rate: Vec<Frac>,
}

/// The fraction of a number. Each that this checker reads has one; of another there is nothing to be tested, as where memory runs out.
pub fn fraction(number: &Number<'_>) -> Result<Frac, NoMemory>
    ensures { OkIff result (TermsFit number.now) number.now }
{
    match number.fraction() {
        Some(value) => Ok(value),
        None => Err(NoMemory),
    }
}

/// The fractions of numbers.
pub fn fractions(alloc: Global, numbers: &[Number<'_>]) -> Result<Vec<Frac>, NoMemory>
    ensures { IfOk result (λ values. values.items ≡ numbers.now) }
{
    let mut values = Vec::new(alloc);
    for number in numbers {
        let value = fraction(number)?;
        values.push(value).map_err(|_| NoMemory)?;
    }
    Ok(values)
}

/// The fractions of a point and of a direction.
pub fn pair_of(alloc: Global, pair: &Pair<'_>) -> Result<FractionPair, NoMemory>
    ensures { IfOk result
        (λ made. (made.point.items ≡ pair.now.point.items) ×
        (made.direction.items ≡ pair.now.direction.items)) }
{
    let point = fractions(alloc, &pair.point)?;
    let direction = fractions(alloc, &pair.direction)?;
    Ok(FractionPair { point, direction })
}

/// The fractions of the lines of an interval.
pub fn columns_of(alloc: Global, columns: &Columns<'_>) -> Result<FractionColumns, NoMemory>
    ensures { IfOk result (AreFractions columns.now) }
{
    let value = fractions(alloc, &columns.value)?;
    let value_rate = fractions(alloc, &columns.value_rate)?;
    let price = fractions(alloc, &columns.price)?;
    let price_rate = fractions(alloc, &columns.price_rate)?;
    Ok(FractionColumns {
        value,
        value_rate,
        price,
        price_rate,
    })
}
