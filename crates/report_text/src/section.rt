// The sections of a report: a heading, and the lines that a table has of the rows or of the columns.
ghost use Rattle.std.specs.Prelude.{◌≡◌, ◌<◌, ◌≤◌, ◌+◌, ◌++◌, ℕ};
ghost use Rattle.std.specs.List.{flat_map};
ghost use Rattle.job_devices.specs.Text.{Writes};
ghost use Rattle.lp_definitions.specs.LinearProgram.{numbers_from, size};
ghost use Rattle.listing_tables.specs.Tables.{HasLine, line_view};

use job_devices::{Sink, WriteStop, put_all};
use listing_tables::{Sheet, Table, put_table, row_count};

/// Writes a heading, and the lines of the rows.
pub fn put_row_section<P: Sink>(
    print: &mut P,
    heading: &'static [u8],
    sheet: Sheet<'_>,
    table: Table<'_>,
) -> Result<(), WriteStop>
    requires { (k : ℕ) → 0 < k → k ≤ sheet.lp.now.matrix.rows → HasLine sheet table k }
    ensures { Writes (P.taken print.old) (P.taken print.new) result (heading.now ++
        flat_map (line_view sheet.entry table.entry)
        (numbers_from 1 sheet.entry.lp.now.matrix.rows)) }
{
    put_all(print, heading)?;
    put_table(print, sheet, table, 0, row_count(sheet.lp))
}

/// Writes a heading, and the lines of the columns.
pub fn put_column_section<P: Sink>(
    print: &mut P,
    heading: &'static [u8],
    sheet: Sheet<'_>,
    table: Table<'_>,
) -> Result<(), WriteStop>
    requires { (k : ℕ) → sheet.lp.now.matrix.rows < k →
        k ≤ size sheet.lp.now.matrix → HasLine sheet table k }
    ensures { Writes (P.taken print.old) (P.taken print.new) result (heading.now ++
        flat_map (line_view sheet.entry table.entry)
        (numbers_from (sheet.entry.lp.now.matrix.rows + 1)
        sheet.entry.lp.now.matrix.cols)) }
{
    put_all(print, heading)?;
    let first = row_count(sheet.lp);
    let last = sheet.lp.number_of_variables();
    put_table(print, sheet, table, first, last)
}
