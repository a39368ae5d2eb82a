// The text of RANGE.
ghost use Rattle.job_devices.specs.Text.{Writes};
ghost use Rattle.listing_definitions.specs.Report as reports;
ghost use Rattle.listing_definitions.specs.Text.{report_text};
ghost use Rattle.report_text.specs.Ranges.{AreRanges, ranges_view};

use crate::section::{put_column_section, put_row_section};
use job_devices::{Sink, WriteStop, put_all};
use listing_tables::{Ranging, Sheet, Table};

/// Writes the intervals in which a basis stays optimal.
pub fn put_ranges<P: Sink>(
    print: &mut P,
    sheet: Sheet<'_>,
    ranging: Ranging<'_>,
) -> Result<(), WriteStop>
    requires { AreRanges sheet ranging }
    ensures { Writes (P.taken print.old) (P.taken print.new) result (report_text
        (reports.Ranges (ranges_view sheet.entry ranging.entry))) }
{
    put_all(print, b"RANGE\n")?;
    put_row_section(
        print,
        b"SECTION 1 - ROWS AT LIMIT LEVEL\n",
        sheet,
        Table::LimitRows(ranging),
    )?;
    put_column_section(
        print,
        b"SECTION 2 - COLUMNS AT LIMIT LEVEL\n",
        sheet,
        Table::LimitColumns(ranging),
    )?;
    put_row_section(
        print,
        b"SECTION 3 - ROWS AT INTERMEDIATE LEVEL\n",
        sheet,
        Table::BetweenRows(ranging),
    )?;
    put_column_section(
        print,
        b"SECTION 4 - COLUMNS AT INTERMEDIATE LEVEL\n",
        sheet,
        Table::BetweenColumns(ranging),
    )
}
