// The lists of a linear program.
ghost use Rattle.std.specs.Prelude.{◌≡◌, ◌<◌, ◌≤◌, IfOk, IfErr, Some, None, length, map, replicate, unwrap_or, slice_get};
ghost use Rattle.exact_values.specs.Rational.{zero_ℚ};
ghost use Rattle.lp_definitions.specs.RatesEvidence.{Names};
ghost use Rattle.problem_definitions.specs.Valid.{AreEntries, AreBounds};
ghost use Rattle.selection_definitions.specs.Limits.{value_on, column_limits};
ghost use Rattle.selection_definitions.specs.Programs.{side_on};
ghost use Rattle.lp_setup.specs.Parts.{by_number, limits_of_rows, IsRowOverflow, IsRowMade, AreRowsMade};
ghost use Rattle.problem_definitions.specs.declared.TheConstants.{MAX_ROWS};

use crate::limits::{Limits, bounded, row_limits, unbounded};
use frac128::{Frac, Refused};
use lp_definitions::Evidence;
use lp_model::{NoMemory, Stop};
use problem_file::{BoundItem, DeckEntry, RowDecl};
use std::alloc::Global;

/// The number of the formula of a right-hand side and a range.
const RANGE_SUM: u8 = 13;

/// A value so many times.
fn repeated<T: Copy + Drop>(alloc: Global, value: T, count: usize) -> Result<Vec<T>, NoMemory>
    ensures { IfOk result (λ values. values.items ≡ replicate count value) }
{
    let mut values = Vec::new(alloc);
    for _i in 0..count {
        values.push(value).map_err(|_| NoMemory)?;
    }
    Ok(values)
}

// ---- rows

/// The value that a set has on each row, if it has one.
pub fn values_by_row(
    alloc: Global,
    rows: usize,
    items: &[DeckEntry],
) -> Result<Vec<Option<Frac>>, NoMemory>
    requires { AreEntries rows items.now }
    ensures { IfOk result (λ values. values.items ≡ by_number (value_on items.now) rows) }
{
    let mut values = repeated(alloc, None, rows)?;
    for item in items {
        values[item.row as usize - 1] = Some(item.value.value());
    }
    Ok(values)
}

/// The right-hand side of each row: 0 where the set has none.
fn sides_of(alloc: Global, values: &[Option<Frac>]) -> Result<Vec<Frac>, NoMemory>
    ensures { IfOk result (λ sides. sides.items ≡ map (λ value. unwrap_or value zero_ℚ)
        values.now) }
{
    Ok(
        values
            .iter()
            .map(|value| value.unwrap_or(Frac::whole(0)))
            .collect(alloc)?,
    )
}

/// The right-hand side that a set makes of each row.
#[tactic(auto, using(crate::proofs::Lists::sides_by_number))]
pub fn right_hand_sides(
    alloc: Global,
    rows: usize,
    items: &[DeckEntry],
) -> Result<Vec<Frac>, NoMemory>
    requires { AreEntries rows items.now }
    ensures { IfOk result (λ sides. sides.items ≡ by_number (side_on items.now) rows) }
{
    let values = values_by_row(alloc, rows, items)?;
    sides_of(alloc, &values)
}

/// The evidence that an operation of this formula on a row, or on a row and a column, is refused.
pub fn refused_on(formula: u8, row: u32, column: u32, term: u32, refused: Refused) -> Evidence
    ensures names { Names result formula 0 0 row column term }
    ensures refused { result.refused ≡ refused }
    ensures no_way { result.way ≡ 0 }
    ensures no_theta { result.theta ≡ zero_ℚ }
{
    Evidence {
        formula,
        way: 0,
        p: 0,
        q: 0,
        i: row,
        j: column,
        term,
        theta: Frac::whole(0),
        refused,
    }
}

/// The limits of the row at a place.
fn limits_at(
    rows: &[RowDecl],
    sides: &[Frac],
    ranges: &[Option<Frac>],
    place: usize,
) -> Result<Limits, Stop>
    requires few { length rows.now ≤ MAX_ROWS }
    requires row { place < length rows.now }
    requires side { length sides.now ≡ length rows.now }
    requires range { length ranges.now ≡ length rows.now }
    ensures limits { IfOk result (λ limits. slice_get (limits_of_rows rows.now sides.now ranges.now)
        place ≡ Some limits) }
    ensures made { IfOk result (λ _. IsRowMade rows.now sides.now ranges.now place) }
    ensures overflow { IfErr result (IsRowOverflow rows.now sides.now ranges.now) }
{
    let row = &rows[place];
    match row_limits(row.kind, sides[place], ranges[place]) {
        Ok(limits) => Ok(limits),
        Err(refused) => {
            let row = place as u32 + 1;
            Err(Stop::Overflow(refused_on(RANGE_SUM, row, 0, 0, refused)))
        }
    }
}

/// The limits of each row, by its right-hand side and its range.
pub fn limits_by_row(
    alloc: Global,
    rows: &[RowDecl],
    sides: &[Frac],
    ranges: &[Option<Frac>],
) -> Result<Vec<Limits>, Stop>
    requires few { length rows.now ≤ MAX_ROWS }
    requires side { length sides.now ≡ length rows.now }
    requires range { length ranges.now ≡ length rows.now }
    ensures limits { IfOk result (λ limits. limits.items ≡ limits_of_rows rows.now sides.now
        ranges.now) }
    ensures made { IfOk result (λ _. AreRowsMade rows.now sides.now ranges.now (length rows.now)) }
    ensures overflow { IfErr result (IsRowOverflow rows.now sides.now ranges.now) }
{
    let mut limits = Vec::new(alloc);
    for place in 0..rows.len() {
        let pair = limits_at(rows, sides, ranges, place)?;
        limits.push(pair).map_err(|_| Stop::NoMemory)?;
    }
    Ok(limits)
}

// ---- columns

/// The limits of each column, with the bounds of the chosen set applied in order.
pub fn limits_by_column(
    alloc: Global,
    columns: usize,
    bounds: &[BoundItem],
) -> Result<Vec<Limits>, NoMemory>
    requires { AreBounds columns bounds.now }
    ensures { IfOk result (λ limits. limits.items ≡ by_number (column_limits bounds.now) columns) }
{
    let mut limits = repeated(alloc, unbounded(), columns)?;
    for bound in bounds {
        let place = bound.column as usize - 1;
        limits[place] = bounded(bound, limits[place]);
    }
    Ok(limits)
}

// ---- limits

/// The lower limits of all.
pub fn lower_limits(alloc: Global, limits: &[Limits]) -> Result<Vec<Option<Frac>>, NoMemory>
    ensures { IfOk result (λ lower. lower.items ≡ map (λ pair. pair.lower) limits.now) }
{
    Ok(limits.iter().map(|pair| pair.lower).collect(alloc)?)
}

/// The upper limits of all.
pub fn upper_limits(alloc: Global, limits: &[Limits]) -> Result<Vec<Option<Frac>>, NoMemory>
    ensures { IfOk result (λ upper. upper.items ≡ map (λ pair. pair.upper) limits.now) }
{
    Ok(limits.iter().map(|pair| pair.upper).collect(alloc)?)
}
