// The text of SOLUTION.
ghost use Rattle.std.specs.Prelude.{◌∷◌, [], codes};
ghost use Rattle.std.specs.List.{concat};
ghost use Rattle.job_devices.specs.Text.{Writes};
ghost use Rattle.listing_definitions.specs.Report as reports;
ghost use Rattle.listing_definitions.specs.Text.{mark_text, report_text};
ghost use Rattle.report_text.specs.Solutions.{IsSolution, lines_view};

use crate::section::{put_column_section, put_row_section};
use job_devices::{Sink, WriteStop, put_each};
use listing_definitions::Mark;
use listing_tables::{Sheet, Standing, Table, mark_word};

fn put_mark<P: Sink>(print: &mut P, mark: Mark) -> Result<(), WriteStop>
    ensures { Writes (P.taken print.old) (P.taken print.new) result
        (concat (codes "SOLUTION " ∷ mark_text mark ∷ codes "\n" ∷ [])) }
{
    put_each(print, &[b"SOLUTION ", mark_word(mark), b"\n"])
}

/// Writes what SOLUTION shows of a basis.
pub fn put_solution<P: Sink>(
    print: &mut P,
    mark: Mark,
    sheet: Sheet<'_>,
    standing: Standing<'_>,
) -> Result<(), WriteStop>
    requires { IsSolution sheet standing }
    ensures { Writes (P.taken print.old) (P.taken print.new) result
        (report_text (reports.Solution mark (lines_view sheet.entry standing.entry))) }
{
    put_mark(print, mark)?;
    put_row_section(
        print,
        b"SECTION 1 - ROWS\nNUMBER ROW AT ACTIVITY SLACK LOWER UPPER DUAL\n",
        sheet,
        Table::Rows(standing),
    )?;
    put_column_section(
        print,
        b"SECTION 2 - COLUMNS\nNUMBER COLUMN AT ACTIVITY COST LOWER UPPER REDUCED\n",
        sheet,
        Table::Columns(standing),
    )
}
