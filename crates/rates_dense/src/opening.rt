//! The table where all rows are basic.

ghost use Rattle.std.specs.Prelude.{◌≡◌, ◌≤◌, length, All, IfOk};
ghost use Rattle.exact_values.specs.Rational.{zero_ℚ};
ghost use Rattle.lp_definitions.specs.LinearProgram.{size, value_at};
ghost use Rattle.lp_definitions.specs.Basis.{row_basics};
ghost use Rattle.rates_dense.specs.Lines.{IsNumberOf};
ghost use Rattle.rates_dense.specs.Opening.{AreBlankLines, AreWritten, AreOpeningLines, AreInOrder};

use crate::line::Line;
use lp_model::{Entry, Lp, NoMemory};
use std::alloc::Global;

/// A line of zeros for each row, in order.
fn blank_lines(alloc: Global, rows: u32, size: u32) -> Result<Vec<Line>, NoMemory>
    ensures { IfOk result (λ lines. AreBlankLines size rows lines.items) }
{
    let mut lines = Vec::with_capacity(alloc, rows as usize)?;
    for k in 0..rows {
        lines
            .push(Line::blank(alloc, k + 1, size)?)
            .map_err(|_| NoMemory)?;
    }
    Ok(lines)
}

/// Writes the numbers of a column, which is variable `j`, into the lines of their rows, from the last to the first.
fn write_column(column: &[Entry], j: u32, lines: &mut [Line])
    requires low { 1 ≤ j }
    requires high { All (λ line. j ≤ length line.rates.items) lines.old }
    requires rows { All (λ entry. IsNumberOf (length lines.old) entry.row) column.now }
    requires zeros { All (λ line. value_at line.rates.items j ≡ zero_ℚ) lines.old }
    ensures { AreWritten j column.now lines.old lines.new }
{
    let count = column.len();
    for back in 0..count {
        let entry = &column[count - 1 - back];
        lines[entry.row as usize - 1].write(j, entry.value);
    }
}

/// Writes the numbers of all columns into lines of zeros.
fn write_columns(lp: &Lp, lines: &mut [Line])
    requires { AreBlankLines (size lp.now.matrix) lp.now.matrix.rows lines.old }
    ensures { AreOpeningLines lp.now.matrix lp.now.matrix.rows lines.new }
{
    let _size = lp.number_of_variables();
    for k in 0..lp.cols {
        write_column(lp.column(k + 1), lp.rows + k + 1, lines);
    }
}

/// The lines of all rows, in order.
pub fn opening_lines(alloc: Global, lp: &Lp) -> Result<Vec<Line>, NoMemory>
    ensures { IfOk result (λ lines. AreOpeningLines lp.now.matrix lp.now.matrix.rows lines.items) }
{
    let mut lines = blank_lines(alloc, lp.rows, lp.number_of_variables())?;
    write_columns(lp, &mut lines);
    Ok(lines)
}

/// A mark for each row, and none for the columns.
pub fn opening_marks(alloc: Global, lp: &Lp) -> Result<Vec<bool>, NoMemory>
    ensures { IfOk result (λ marks. marks.items ≡ row_basics lp.now.matrix) }
{
    let mut marks = Vec::new(alloc);
    for k in 0..lp.number_of_variables() {
        marks.push(k < lp.rows).map_err(|_| NoMemory)?;
    }
    Ok(marks)
}

/// The slot of each row in order; those of the columns don't count.
pub fn opening_slots(alloc: Global, size: u32) -> Result<Vec<u32>, NoMemory>
    ensures { IfOk result (λ slots. AreInOrder size slots.items) }
{
    let mut slots = Vec::new(alloc);
    for k in 0..size {
        slots.push(k).map_err(|_| NoMemory)?;
    }
    Ok(slots)
}
