// The test of an interval of a parametric run.
ghost use Rattle.std.specs.Prelude.{◌≡◌, ◌||◌, ◌&&◌, List, IfOk, length};
ghost use Rattle.exact_values.specs.Rational.{ℚ};
ghost use Rattle.exact_values.specs.Tests.{is_less, is_equal};
ghost use Rattle.lp_definitions.specs.LinearProgram.{LinearProgram};
ghost use Rattle.question_definitions.specs.Answers.{Sheet as Views, Changing};
ghost use Rattle.walk_definitions.specs.Checkers.{checker_of_any_length};
ghost use Rattle.listing_claims.specs.declared.claims.Columns.{Columns as ColumnsView};
ghost use Rattle.listing_claims.specs.Asked.{IsAskedOf, sheet_of, changing_in};
ghost use Rattle.listing_claims.specs.Intervals.{AreCounted, part_verdict};
ghost use Rattle.long_vectors.specs.Vectors.{IsValue, IsOver, list_along};
ghost use Rattle.long_programs.specs.Programs.{IsChangeIn, IsPlain};
ghost use Rattle.long_programs.specs.Places.{IsSpread};
ghost use Rattle.long_points.specs.Ends.{IsEnd};
ghost use Rattle.long_solutions.specs.Answers.{Answers};
ghost use Rattle.long_solutions.specs.Lines.{AreOver, AreLinesOf, IsNumber, IsFamily, points_at, ends_verdict};

use crate::values::{compare_values, compare_with_fraction, is_at_most};
use listing_claims::{Columns, PlacedPart, SheetRun};
use listing_words::Allowance;
use long_points::{End, Ends, all_prices_keep, both, check_sums, optimal, take_spread};
use long_programs::{ProgramAt, Spread, change_at, spread_by};
use long_vectors::{Column, Value, along, column_of, value_of};
use lp_model::Lp;
use std::alloc::{AllocError, Global};
use std::cmp::Ordering;

/// Numbers and their rates, each over one denominator.
#[derive(Drop)]
pub struct Line {
    pub value: Column,
    pub rate: Column,
}

/// The lines of an interval: the values and the prices of the variables.
#[derive(Drop)]
pub struct Lines {
    pub values: Line,
    pub prices: Line,
}

// The lines of an interval over denominators. Where the sums of the first would be too much work, the others aren't made.
fn lines_of(
    alloc: Global,
    lp: &Lp,
    columns: &Columns<'_>,
    allowance: &mut Allowance,
) -> Result<Lines, AllocError>
    ensures { IfOk result (AreOver columns.now) }
{
    let value = column_of(alloc, &columns.value, allowance)?;
    check_sums(allowance, lp, &value)?;
    let rate = column_of(alloc, &columns.value_rate, allowance)?;
    let values = Line { value, rate };
    let price = column_of(alloc, &columns.price, allowance)?;
    let price_rate = column_of(alloc, &columns.price_rate, allowance)?;
    let prices = Line {
        value: price,
        rate: price_rate,
    };
    Ok(Lines { values, prices })
}

// The numbers of a line at theta.
fn numbers_at(
    alloc: Global,
    theta: &Value,
    line: &Line,
    allowance: &mut Allowance,
) -> Result<Spread, AllocError>
    requires { length line.now.value.tops.items ≡ length line.now.rate.tops.items }
    ensures { IfOk result
        (λ made. (x : ℚ) (values rates : List ℚ) → IsValue x theta.now →
        IsOver values line.now.value → IsOver rates line.now.rate →
        IsSpread (list_along x values rates) x made) }
{
    let column = along(alloc, theta, &line.value, &line.rate, allowance)?;
    let made = spread_by(alloc, theta, &column, allowance)?;
    Ok(made)
}

// The point and the prices at theta.
fn end_at(
    alloc: Global,
    theta: &Value,
    lines: &Lines,
    allowance: &mut Allowance,
) -> Result<End, AllocError>
    requires lines { (p : LinearProgram) × AreLinesOf p lines.now }
    ensures { IfOk result
        (λ end. (x : ℚ) (columns : ColumnsView) → IsValue x theta.now → AreOver columns lines.now →
        IsEnd (points_at x columns) x end) }
{
    let point = numbers_at(alloc, theta, &lines.values, allowance)?;
    let prices = numbers_at(alloc, theta, &lines.prices, allowance)?;
    Ok(End { point, prices })
}

// A line at theta, which is let go.
fn joined(
    alloc: Global,
    theta: &Value,
    line: Line,
    allowance: &mut Allowance,
) -> Result<Column, AllocError>
    requires { length line.value.tops.items ≡ length line.rate.tops.items }
    ensures { IfOk result
        (λ made. (x : ℚ) (values rates : List ℚ) → IsValue x theta.now → IsOver values line.value →
        IsOver rates line.rate → IsOver (list_along x values rates) made) }
{
    let made = along(alloc, theta, &line.value, &line.rate, allowance)?;
    Ok(made)
}

// The numbers of a line at theta, where the line is let go before the numbers are spread, so that less stands at once.
fn last_numbers(
    alloc: Global,
    theta: &Value,
    line: Line,
    allowance: &mut Allowance,
) -> Result<Spread, AllocError>
    requires { length line.value.tops.items ≡ length line.rate.tops.items }
    ensures { IfOk result
        (λ made. (x : ℚ) (values rates : List ℚ) → IsValue x theta.now → IsOver values line.value →
        IsOver rates line.rate → IsSpread (list_along x values rates) x made) }
{
    let column = joined(alloc, theta, line, allowance)?;
    let made = spread_by(alloc, theta, &column, allowance)?;
    Ok(made)
}

// The point and the prices at theta, of lines that are let go.
fn last_end(
    alloc: Global,
    theta: &Value,
    lines: Lines,
    allowance: &mut Allowance,
) -> Result<End, AllocError>
    requires lines { (p : LinearProgram) × AreLinesOf p lines }
    ensures { IfOk result
        (λ end. (x : ℚ) (columns : ColumnsView) → IsValue x theta.now → AreOver columns lines →
        IsEnd (points_at x columns) x end) }
{
    let point = last_numbers(alloc, theta, lines.values, allowance)?;
    let prices = last_numbers(alloc, theta, lines.prices, allowance)?;
    Ok(End { point, prices })
}

// Takes from the allowance what the sums of a point and of prices are.
fn take_end(allowance: &mut Allowance, lp: &Lp, end: &End) -> Result<(), AllocError> {
    take_spread(allowance, lp, &end.point)?;
    take_spread(allowance, lp, &end.prices)
}

// Whether both ends are best, and what they keep between them.
fn ends_hold(
    alloc: Global,
    at: &ProgramAt<'_>,
    from: &Value,
    to: &Value,
    lines: Lines,
    allowance: &mut Allowance,
) -> Result<bool, AllocError>
    requires change { IsChangeIn at.now.lp.now at.now.change }
    requires plain { IsPlain at.now.lp.now at.now.change }
    requires lines { AreLinesOf at.now.lp.now lines }
    requires from { IsNumber from.now }
    requires to { IsNumber to.now }
    ensures { IfOk result
        (λ holds. (sheet : Views) (changing : Changing) (first last : ℚ) (columns : ColumnsView) →
        IsFamily sheet changing at.now.lp.now at.now.change →
        AreCounted sheet.lp columns → IsValue first from.now → IsValue last to.now →
        AreOver columns lines → Answers holds (ends_verdict sheet changing first last columns)) }
{
    let start = end_at(alloc, from, &lines, allowance)?;
    take_end(allowance, at.lp, &start)?;
    let begins = optimal(alloc, at, &start)?;
    let end = last_end(alloc, to, lines, allowance)?;
    take_end(allowance, at.lp, &end)?;
    let closes = optimal(alloc, at, &end)?;
    let ends = Ends {
        program: *at,
        start: &start,
        end: &end,
    };
    let keeps = all_prices_keep(alloc, &ends)?;
    let rest = both(closes, keeps);
    Ok(both(begins, rest))
}

// An interval goes on; the first may be a point.
fn goes_on(order: Ordering, is_first: bool) -> bool
    ensures { result ≡ (is_less order || (is_first && is_equal order)) }
{
    order.is_lt() || (is_first && order.is_eq())
}

/// Whether an interval of a parametric run passes.
pub fn interval_holds(
    alloc: Global,
    run: &SheetRun<'_, '_>,
    placed: &PlacedPart<'_, '_>,
    allowance: &mut Allowance,
) -> Result<bool, AllocError>
    requires asked { IsAskedOf run.now.sheet run.now.request.now }
    requires counted { AreCounted run.now.sheet.lp.now placed.now.part.now.columns }
    ensures { IfOk result
        (λ holds. Answers holds
        (part_verdict checker_of_any_length (sheet_of run.now) (changing_in run.now)
        placed.now.from.now placed.now.part.now.to placed.now.part.now.columns
        placed.now.is_first run.now.request.now.to)) }
{
    let lp = run.sheet.lp;
    let at = ProgramAt {
        lp,
        change: change_at(&run.request.change),
    };
    let part = placed.part;
    let first = value_of(alloc, placed.from)?;
    let last = value_of(alloc, &part.to)?;
    let lines = lines_of(alloc, lp, &part.columns, allowance)?;
    let order = compare_values(alloc, &first, &last)?;
    let most = compare_with_fraction(alloc, &last, run.request.to)?;
    let goes = goes_on(order, placed.is_first);
    let within = is_at_most(most);
    let ends = ends_hold(alloc, &at, &first, &last, lines, allowance)?;
    let rest = both(within, ends);
    Ok(both(goes, rest))
}
