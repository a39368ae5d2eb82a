// The text of a parametric run.
ghost use Rattle.std.specs.Prelude.{◌≡◌, ◌<◌, ◌≤◌, ◌+◌, ◌-◌, ◌++◌, ◌∷◌, ℕ, [], codes, map};
ghost use Rattle.std.specs.List.{All, concat, flat_map, enumerate_from};
ghost use Rattle.job_devices.specs.Text.{Writes};
ghost use Rattle.listing_definitions.specs.Numbers.{digits, rational_text};
ghost use Rattle.listing_definitions.specs.Report as reports;
ghost use Rattle.listing_definitions.specs.Text.{solver_text, table_text, interval_text, chain_end_text, report_text};
ghost use Rattle.listing_tables.specs.Sheets.{IsSheet};
ghost use Rattle.lp_definitions.specs.LinearProgram.{size, variables};
ghost use Rattle.listing_tables.specs.Tables.{IsPart, HasLine, line_view};
ghost use Rattle.report_text.specs.Parametric.{IsRunEnd, IsParametric, interval_view, end_view, chain_view};

use frac128::Frac;
use itoa::Buffer;
use job_devices::{Sink, WriteStop, put_each};
use listing_definitions::Solver;
use listing_tables::{Sheet, Table, fraction, put_table, solver_word};
use lp_model::{ParaEnd, ParaPart, ParaRun};
use name_table::Name;

// The first value, and the row or set that changes.
fn put_parametric_head<P: Sink>(
    print: &mut P,
    by: Solver,
    from: Frac,
    change: Name,
) -> Result<(), WriteStop>
    ensures { Writes (P.taken print.old) (P.taken print.new) result
        (concat (solver_text by ∷ codes " FROM " ∷ rational_text from ∷ codes " CHANGE "
        ∷ change ∷ codes "\n" ∷ [])) }
{
    let value = fraction(from);
    put_each(
        print,
        &[
            solver_word(by),
            b" FROM ",
            value.as_str().as_bytes(),
            b" CHANGE ",
            change.bytes(),
            b"\n",
        ],
    )
}

// The digits of an interval's number.
#[tactic(auto, using(listing_definitions::proofs::Decimals::decimal_is_digits))]
fn interval_digits(buffer: &mut Buffer, number: usize) -> &str
    ensures { result.now ≡ digits number }
{
    buffer.format(number)
}

// The number of an interval, and its ends.
fn put_interval_head<P: Sink>(
    print: &mut P,
    number: usize,
    part: &ParaPart,
) -> Result<(), WriteStop>
    ensures { Writes (P.taken print.old) (P.taken print.new) result
        (concat (codes "INTERVAL " ∷ digits number ∷ codes " FROM " ∷ rational_text part.now.from
        ∷ codes " TO " ∷ rational_text part.now.to ∷ codes "\n" ∷ [])) }
{
    let mut buffer = Buffer::new();
    let low = fraction(part.from);
    let high = fraction(part.to);
    put_each(
        print,
        &[
            b"INTERVAL ",
            interval_digits(&mut buffer, number).as_bytes(),
            b" FROM ",
            low.as_str().as_bytes(),
            b" TO ",
            high.as_str().as_bytes(),
            b"\n",
        ],
    )
}

// An interval with its number, and a line for each variable.
fn put_interval<P: Sink>(
    print: &mut P,
    sheet: Sheet<'_>,
    number: usize,
    part: &ParaPart,
) -> Result<(), WriteStop>
    requires is_sheet { IsSheet sheet }
    requires is_part { IsPart sheet part.now }
    ensures { Writes (P.taken print.old) (P.taken print.new) result
        (interval_text (number, interval_view sheet.entry part.now)) }
{
    put_interval_head(print, number, part)?;
    let last = sheet.lp.number_of_variables();
    put_table(print, sheet, Table::Parts(part), 0, last)
}

// The intervals, numbered from 1.
fn put_intervals<P: Sink>(
    print: &mut P,
    sheet: Sheet<'_>,
    parts: &[ParaPart],
) -> Result<(), WriteStop>
    requires is_sheet { IsSheet sheet }
    requires are_parts { All (IsPart sheet) parts.now }
    ensures { Writes (P.taken print.old) (P.taken print.new) result
        (flat_map interval_text (enumerate_from 1 (map (interval_view sheet.entry) parts.now))) }
{
    for (index, part) in parts.iter().enumerate() {
        put_interval(print, sheet, index + 1, part)?;
    }
    Ok(())
}

// How the run ends, and at or past which value.
fn put_end_head<P: Sink>(
    print: &mut P,
    by: Solver,
    found: &'static [u8],
    value: Frac,
) -> Result<(), WriteStop>
    ensures { Writes (P.taken print.old) (P.taken print.new) result
        (concat (solver_text by ∷ found.now ∷ rational_text value ∷ codes "\n" ∷ [])) }
{
    let text = fraction(value);
    put_each(
        print,
        &[solver_word(by), found, text.as_str().as_bytes(), b"\n"],
    )
}

// Past this value all is unbounded or infeasible, as the lines of all variables show.
fn put_past<P: Sink>(
    print: &mut P,
    by: Solver,
    found: &'static [u8],
    past: Frac,
    sheet: Sheet<'_>,
    table: Table<'_>,
) -> Result<(), WriteStop>
    requires { (k : ℕ) → 0 < k → k ≤ size sheet.lp.now.matrix → HasLine sheet table k }
    ensures { Writes (P.taken print.old) (P.taken print.new) result
        (concat (solver_text by ∷ found.now ∷ rational_text past ∷ codes "\n" ∷ []) ++
        flat_map (line_view sheet.entry table.entry) (variables sheet.entry.lp.now.matrix)) }
{
    put_end_head(print, by, found, past)?;
    let last = sheet.lp.number_of_variables();
    put_table(print, sheet, table, 0, last)
}

// How the run ends.
fn put_run_end<P: Sink>(
    print: &mut P,
    by: Solver,
    sheet: Sheet<'_>,
    to: Frac,
    end: &ParaEnd,
) -> Result<(), WriteStop>
    requires { IsRunEnd sheet end.now }
    ensures { Writes (P.taken print.old) (P.taken print.new) result
        (chain_end_text by (end_view sheet.entry to end.now)) }
{
    match end {
        ParaEnd::AtMax => put_end_head(print, by, b" ENDS AT ", to),
        ParaEnd::Unbounded {
            past,
            point,
            direction,
        } => {
            let pairs = Table::Pairs(point.values(), direction.values());
            put_past(print, by, b" UNBOUNDED PAST ", *past, sheet, pairs)
        }
        ParaEnd::Infeasible { past, ray } => {
            let multipliers = Table::Multipliers(ray.values());
            put_past(print, by, b" INFEASIBLE PAST ", *past, sheet, multipliers)
        }
    }
}

/// A parametric run, with the row or set that changes along it, and its first and last value.
#[derive(Clone, Copy)]
pub struct ParametricReport<'a> {
    pub change: Name,
    pub from: Frac,
    pub to: Frac,
    pub run: &'a ParaRun,
}

/// Writes a parametric run: its first value, the row or set that changes, its intervals and its end.
pub fn put_parametric<P: Sink>(
    print: &mut P,
    by: Solver,
    sheet: Sheet<'_>,
    report: ParametricReport<'_>,
) -> Result<(), WriteStop>
    requires { IsParametric sheet report.run.now }
    ensures { Writes (P.taken print.old) (P.taken print.new) result
        (report_text (reports.Parametric by (chain_view sheet.entry report.entry.change
        report.entry.from report.entry.to report.entry.run.now))) }
{
    put_parametric_head(print, by, report.from, report.change)?;
    put_intervals(print, sheet, report.run.parts.items())?;
    put_run_end(print, by, sheet, report.to, &report.run.end)
}
