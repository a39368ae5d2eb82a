// The numbers of a column on combinations, each the sum of its parts.
ghost use Rattle.std.specs.Prelude.{◌≡◌, ◌<◌, ◌≤◌, ◌+◌, ◌⊎◌, IfOk, IfErr, IfSome, false, length, filter_map};
ghost use Rattle.std.specs.List.{enumerate_from};
ghost use Rattle.exact_values.specs.Rational.{zero_ℚ, ◌+ℚ◌, ◌*ℚ◌};
ghost use Rattle.frac128.specs.Operations.{refuses};
ghost use Rattle.lp_definitions.specs.RatesEvidence.{Names};
ghost use Rattle.check_definitions.specs.declared.Verdict.TheVariants.{Checked};
ghost use Rattle.check_definitions.specs.Steps.{verdict_of, sum_steps};
ghost use Rattle.problem_definitions.specs.Valid.{IsNumberOf, AreEntries};
ghost use Rattle.selection_definitions.specs.Combinations.{value_in, part_product, part_products, sum_if_any, column_values as values_on_rows};
ghost use Rattle.selection_definitions.specs.Combinations.{on_combination as number_on, on_combinations};
ghost use Rattle.lp_setup.specs.Parts.{IsSumRefusal};
ghost use Rattle.lp_setup.specs.Combined.{IsTotalWith, IsTermOverflow, IsRefusedWith, IsRefusedPart, IsRowValue, IsRowValueMade, IsRowValueOverflow, AreParts};
ghost use Rattle.lp_setup.specs.Combined.{AreSumsMade, IsColumnOverflow};
ghost use Rattle.problem_definitions.specs.declared.TheConstants.{MAX_ROWS};

use crate::parts::{refused_on, values_by_row};
use frac128::{Frac, Op, Refused};
use lp_definitions::Entry;
use lp_model::{NoMemory, Stop};
use problem_file::{DeckEntry, RowDecl};
use std::alloc::Global;

/// The number of the formula of a combination's parts.
const COMBINATION: u8 = 19;

// ---- the sum of the parts

/// What the parts of a combination come to so far: their sum, if one of them adds something, and how many do.
#[derive(Clone, Copy, Debug)]
pub struct Total {
    pub sum: Option<Frac>,
    pub terms: u32,
}

/// A product of a part, or the sum of those before with it, that is refused; and how many products stand before it.
#[derive(Clone, Copy, Debug)]
pub struct RefusedPart {
    pub term: u32,
    pub refused: Refused,
}

/// A sum with a product more.
fn sum_with(sum: Frac, multiplier: Frac, value: Frac) -> Result<Frac, Refused>
    ensures sum { IfOk result (λ total. total ≡ sum +ℚ multiplier *ℚ value) }
    ensures product_made { IfOk result (λ _. refuses Op.Mul multiplier value ≡ false) }
    ensures sum_made { IfOk result (λ _. refuses Op.Add sum (multiplier *ℚ value) ≡ false) }
    ensures refused { IfErr result (λ refused. IsSumRefusal Op.Mul multiplier value refused ⊎
        IsSumRefusal Op.Add sum (multiplier *ℚ value) refused) }
{
    let product = multiplier.mul(value)?;
    sum.add(product)
}

/// What the parts come to with one more, which adds something where the column has a value on its row.
fn with_part(total: Total, part: &DeckEntry, values: &[Option<Frac>]) -> Result<Total, RefusedPart>
    requires row { IsNumberOf (length values.now) part.now.row }
    requires room { total.terms < 4294967295 }
    ensures total { IfOk result (IsTotalWith total (part_product values.now part.now)) }
    ensures refused { IfErr result (IsRefusedWith total (part_product values.now part.now)) }
{
    let Some(value) = values[part.row as usize - 1] else {
        return Ok(total);
    };
    let sum = total.sum.unwrap_or(Frac::whole(0));
    match sum_with(sum, part.value.value(), value) {
        Ok(sum) => Ok(Total {
            sum: Some(sum),
            terms: total.terms + 1,
        }),
        Err(refused) => Err(RefusedPart {
            term: total.terms,
            refused,
        }),
    }
}

/// The sum of a combination's parts in a column with these values on the rows before it, if a part adds something.
fn sum_of_parts(parts: &[DeckEntry], values: &[Option<Frac>]) -> Result<Option<Frac>, RefusedPart>
    requires few { length values.now ≤ MAX_ROWS }
    requires parts { AreEntries (length values.now) parts.now }
    ensures sum { IfOk result (λ sum. sum ≡ sum_if_any (part_products parts.now values.now)) }
    ensures made { IfOk result (λ _. verdict_of (sum_steps zero_ℚ
        (part_products parts.now values.now)) ≡ Checked) }
    ensures refused { IfErr result (IsRefusedPart (part_products parts.now values.now)) }
{
    let mut total = Total {
        sum: None,
        terms: 0,
    };
    for part in parts {
        total = with_part(total, part, values)?;
    }
    Ok(total.sum)
}

// ---- the values of a column

/// The sum of a combination's parts in a column, of which this is the variable's number.
fn combination_value(
    parts: &[DeckEntry],
    before: &[Option<Frac>],
    column: u32,
) -> Result<Option<Frac>, Stop>
    requires few { length before.now ≤ MAX_ROWS }
    requires parts { AreEntries (length before.now) parts.now }
    ensures sum { IfOk result (λ sum. sum ≡ sum_if_any (part_products parts.now before.now)) }
    ensures made { IfOk result (λ _. verdict_of (sum_steps zero_ℚ
        (part_products parts.now before.now)) ≡ Checked) }
    ensures overflow { IfErr result (IsTermOverflow (part_products parts.now before.now)
        (length before.now) column) }
{
    match sum_of_parts(parts, before) {
        Ok(sum) => Ok(sum),
        Err(refused) => {
            let row = before.len() as u32 + 1;
            let RefusedPart { term, refused } = refused;
            Err(Stop::Overflow(refused_on(COMBINATION, row, column, term, refused)))
        }
    }
}

/// What a column has on a row, from its values by row: on a plain row its own value, and on a combination the sum of its parts.
fn row_value(
    row: &RowDecl,
    place: usize,
    values: &[Option<Frac>],
    column: u32,
) -> Result<Option<Frac>, Stop>
    requires few { length values.now ≤ MAX_ROWS }
    requires within { place < length values.now }
    requires parts { IfSome row.now.parts (AreEntries place) }
    ensures value { IfOk result (IsRowValue values.now row.now.parts place) }
    ensures made { IfOk result (λ _. IsRowValueMade values.now row.now.parts place) }
    ensures overflow { IfErr result (IsRowValueOverflow values.now row.now.parts place column) }
{
    match &row.parts {
        None => Ok(values[place]),
        Some(parts) => combination_value(parts, &values[..place], column),
    }
}

/// What a column has on each row, one row after the other.
fn column_values(
    alloc: Global,
    rows: &[RowDecl],
    entries: &[DeckEntry],
    column: u32,
) -> Result<Vec<Option<Frac>>, Stop>
    requires few { length rows.now ≤ MAX_ROWS }
    requires parts { AreParts rows.now }
    requires entries { AreEntries (length rows.now) entries.now }
    ensures values { IfOk result (λ values. values.items ≡ values_on_rows rows.now entries.now) }
    ensures made { IfOk result (λ _. AreSumsMade rows.now entries.now (length rows.now)) }
    ensures overflow { IfErr result (IsColumnOverflow rows.now entries.now column) }
{
    let mut values = values_by_row(alloc, rows.len(), entries)?;
    for place in 0..rows.len() {
        values[place] = row_value(&rows[place], place, &values, column)?;
    }
    Ok(values)
}

// ---- the numbers of a column

/// The number of a column on a row, where the row is a combination and the column has this value there.
fn on_combination(row: &RowDecl, number: u32, value: Option<Frac>) -> Option<Entry>
    ensures { result ≡ number_on number value row.now.parts }
{
    if !row.is_combination() {
        return None;
    }
    match value {
        Some(value) => Some(Entry { row: number, value }),
        None => None,
    }
}

/// The numbers of a column on the combinations, from what it has on each row.
fn numbers_on_combinations(
    alloc: Global,
    rows: &[RowDecl],
    values: &[Option<Frac>],
) -> Result<Vec<Entry>, NoMemory>
    requires few { length rows.now ≤ MAX_ROWS }
    requires values { length values.now ≡ length rows.now }
    ensures { IfOk result (λ numbers. numbers.items ≡ filter_map
        (λ row. number_on row.0 (value_in values.now row.0) row.1.parts)
        (enumerate_from 1 rows.now)) }
{
    let mut numbers = Vec::new(alloc);
    for place in 0..rows.len() {
        let Some(number) = on_combination(&rows[place], place as u32 + 1, values[place]) else {
            continue;
        };
        numbers.push(number).map_err(|_| NoMemory)?;
    }
    Ok(numbers)
}

/// The numbers of a column on the combinations, the sums of their parts. The column is the variable of this number.
pub fn combined_numbers(
    alloc: Global,
    rows: &[RowDecl],
    entries: &[DeckEntry],
    column: u32,
) -> Result<Vec<Entry>, Stop>
    requires few { length rows.now ≤ MAX_ROWS }
    requires parts { AreParts rows.now }
    requires entries { AreEntries (length rows.now) entries.now }
    ensures numbers { IfOk result (λ numbers. numbers.items ≡ on_combinations rows.now
        entries.now) }
    ensures made { IfOk result (λ _. AreSumsMade rows.now entries.now (length rows.now)) }
    ensures overflow { IfErr result (IsColumnOverflow rows.now entries.now column) }
{
    let values = column_values(alloc, rows, entries, column)?;
    let numbers = numbers_on_combinations(alloc, rows, &values)?;
    Ok(numbers)
}
