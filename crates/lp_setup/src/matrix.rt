// The numbers of each column: those that the deck gives, and those on combinations.
ghost use Rattle.std.specs.Prelude.{◌≡◌, ◌≤◌, ◌+◌, ◌++◌, All, IfOk, IfErr, length, map, is_some};
ghost use Rattle.std.specs.List.{list_any};
ghost use Rattle.lp_model.specs.Columns.{entries_of};
ghost use Rattle.problem_definitions.specs.Valid.{AreEntries};
ghost use Rattle.selection_definitions.specs.Selection.{entered, coefficients as numbers_of};
ghost use Rattle.lp_setup.specs.Combined.{AreParts, AreSumsMade, AreColumnsMade, IsColumnOverflow, IsMatrixOverflow};
ghost use Rattle.problem_definitions.specs.declared.TheConstants.{MAX_ROWS, MAX_COLUMNS};

use crate::combined::combined_numbers;
use lp_definitions::Entry;
use lp_model::{NoMemory, Stop};
use problem_file::{ColumnDecl, RowDecl};
use std::alloc::Global;

/// The numbers that the deck gives for a column.
fn given_numbers(alloc: Global, column: &ColumnDecl) -> Result<Vec<Entry>, NoMemory>
    ensures { IfOk result (λ numbers. numbers.items ≡ entered column.now.items) }
{
    Ok(
        column
            .items
            .iter()
            .map(|entry| Entry {
                row: entry.row,
                value: entry.value.value(),
            })
            .collect(alloc)?,
    )
}

/// Two lists of numbers, one after the other, in one piece of memory.
fn joined(alloc: Global, first: &[Entry], second: &[Entry]) -> Result<Vec<Entry>, NoMemory>
    ensures { IfOk result (λ all. all.items ≡ first.now ++ second.now) }
{
    let mut all = Vec::with_capacity(alloc, first.len() + second.len())?;
    all.extend_from_slice(first)?;
    all.extend_from_slice(second)?;
    Ok(all)
}

/// The numbers of a column: those that the deck gives, and then those on the combinations. The column is the variable of this number.
fn coefficients(
    alloc: Global,
    rows: &[RowDecl],
    column: &ColumnDecl,
    number: u32,
) -> Result<Vec<Entry>, Stop>
    requires few { length rows.now ≤ MAX_ROWS }
    requires parts { AreParts rows.now }
    requires entries { AreEntries (length rows.now) column.now.items }
    ensures numbers { IfOk result (λ numbers. numbers.items ≡ numbers_of rows.now column.now) }
    ensures made { IfOk result (λ _. AreSumsMade rows.now column.now.items (length rows.now)) }
    ensures overflow { IfErr result (IsColumnOverflow rows.now column.now.items number) }
{
    let given = given_numbers(alloc, column)?;
    let combined = combined_numbers(alloc, rows, &column.items, number)?;
    let all = joined(alloc, &given, &combined)?;
    Ok(all)
}

/// The numbers that the deck gives for each column.
fn given_columns(alloc: Global, columns: &[ColumnDecl]) -> Result<Vec<Vec<Entry>>, NoMemory>
    ensures { IfOk result (λ matrix. entries_of matrix.items ≡ map
        (λ column. entered column.items) columns.now) }
{
    let mut matrix = Vec::new(alloc);
    for column in columns {
        matrix
            .push(given_numbers(alloc, column)?)
            .map_err(|_| NoMemory)?;
    }
    Ok(matrix)
}

/// Whether one of the rows is a combination.
fn has_combination(rows: &[RowDecl]) -> bool
    ensures { result ≡ list_any (λ row. is_some row.parts) rows.now }
{
    rows.iter().any(|row| row.is_combination())
}

/// The numbers of each column. Where no row is a combination, those that the deck gives are all.
pub fn matrix_columns(
    alloc: Global,
    rows: &[RowDecl],
    columns: &[ColumnDecl],
) -> Result<Vec<Vec<Entry>>, Stop>
    requires few_rows { length rows.now ≤ MAX_ROWS }
    requires few_columns { length columns.now ≤ MAX_COLUMNS }
    requires parts { AreParts rows.now }
    requires entries { All (λ column. AreEntries (length rows.now) column.items) columns.now }
    ensures matrix { IfOk result (λ matrix. entries_of matrix.items ≡ map (numbers_of rows.now)
        columns.now) }
    ensures made { IfOk result (λ _. AreColumnsMade rows.now columns.now (length columns.now)) }
    ensures overflow { IfErr result (IsMatrixOverflow rows.now columns.now) }
{
    if !has_combination(rows) {
        let given = given_columns(alloc, columns)?;
        return Ok(given);
    }
    let mut matrix = Vec::new(alloc);
    for place in 0..columns.len() {
        let number = (rows.len() + place) as u32 + 1;
        let numbers = coefficients(alloc, rows, &columns[place], number)?;
        matrix.push(numbers).map_err(|_| Stop::NoMemory)?;
    }
    Ok(matrix)
}
