// The tests of an interval of a parametric run.
ghost use Rattle.std.specs.Prelude.{◌≡◌, ◌&&◌, ◌||◌, ℕ, IfOk};
ghost use Rattle.std.specs.List.{flat_map};
ghost use Rattle.exact_values.specs.Tests.{lt_ℚ, eq_ℚ};
ghost use Rattle.lp_definitions.specs.LinearProgram.{IsVariable, value_at, variables, lower_of, upper_of};
ghost use Rattle.check_definitions.specs.Steps.{verdict_of};
ghost use Rattle.check_definitions.specs.Checks.{is_at};
ghost use Rattle.walk_definitions.specs.Checkers.{checker_of_128_bits};
ghost use Rattle.walk_definitions.specs.Tests.{keeps_limit};
ghost use Rattle.listing_claims.specs.Asked.{IsAskedOf, sheet_of, changing_in};
ghost use Rattle.listing_claims.specs.Passing.{Judges};
ghost use Rattle.checks_of_128_bits.specs.Making.{Makes};
ghost use Rattle.checks_of_128_bits.specs.Fractions.{HasColumns};
ghost use Rattle.checks_of_128_bits.specs.Intervals.{IsInterval, IsEnd, AreEnds, kept_steps, end_verdict, interval_verdict};

use crate::families::{along, program_at};
use crate::fractions::{FractionColumns, columns_of, fraction};
use crate::judging::{ask, is_at_most, judge, judge_at};
use certificate_check::{check_optimal, counted_for, holds_by_sign, is_equal, stands_at};
use frac128::Frac;
use listing_claims::{Part, SheetRun, Stop};
use listing_words::Number;
use lp_model::{Lp, NoMemory};
use std::alloc::Global;

/// An interval in fractions.
#[derive(Drop)]
pub struct Interval {
    pub from: Frac,
    pub to: Frac,
    pub columns: FractionColumns,
}

/// What is made at an end of an interval: the linear program, the point and the prices.
#[derive(Drop)]
pub struct IntervalEnd {
    pub program: Lp,
    pub point: Vec<Frac>,
    pub prices: Vec<Frac>,
}

// At an end of the interval the linear program is made, the point and the prices are, and these are best.
fn check_end(
    alloc: Global,
    run: &SheetRun<'_, '_>,
    theta: Frac,
    columns: &FractionColumns,
) -> Result<IntervalEnd, Stop>
    requires asked { IsAskedOf run.now.sheet run.now.request.now }
    requires counted { HasColumns run.now.sheet.lp.now columns.now }
    ensures { let changing = changing_in run.now in
        Makes (IsEnd (sheet_of run.now) changing theta columns.now) (end_verdict
        (sheet_of run.now) changing theta columns.now) result }
{
    let program = program_at(alloc, run, theta)?;
    let point = along(alloc, run.sheet, theta, &columns.value, &columns.value_rate)?;
    let prices = along(alloc, run.sheet, theta, &columns.price, &columns.price_rate)?;
    judge(check_optimal(&program, &point, &prices))?;
    Ok(IntervalEnd {
        program,
        point,
        prices,
    })
}

// Whether each point stands at its upper limit.
fn are_at_upper(start: &IntervalEnd, end: &IntervalEnd, k: u32) -> bool
    requires { AreEnds start.now end.now k }
    ensures { result ≡
        (is_at (upper_of start.now.program k) (value_at start.now.point.items k) &&
        is_at (upper_of end.now.program k)
        (value_at end.now.point.items k)) }
{
    let place = k as usize - 1;
    let first = start.point[place];
    let last = end.point[place];
    stands_at(start.program.upper_limit(k), first) && stands_at(end.program.upper_limit(k), last)
}

// Whether each point stands at its lower limit.
fn are_at_lower(start: &IntervalEnd, end: &IntervalEnd, k: u32) -> bool
    requires { AreEnds start.now end.now k }
    ensures { result ≡
        (is_at (lower_of start.now.program k) (value_at start.now.point.items k) &&
        is_at (lower_of end.now.program k)
        (value_at end.now.point.items k)) }
{
    let place = k as usize - 1;
    let first = start.point[place];
    let last = end.point[place];
    stands_at(start.program.lower_limit(k), first) && stands_at(end.program.lower_limit(k), last)
}

// The price asks for one limit at both ends.
fn check_price(start: &IntervalEnd, end: &IntervalEnd, price: Frac, k: u32) -> Result<(), Stop>
    requires { AreEnds start.now end.now k }
    ensures { Judges
        (verdict_of (keeps_limit start.now.program end.now.program (value_at start.now.point.items)
        (value_at end.now.point.items) price k)) result }
{
    let program = &start.program;
    let price = counted_for(program.sense, price);
    let at_upper = are_at_upper(start, end, k);
    let at_lower = are_at_lower(start, end, k);
    judge_at(holds_by_sign(price, at_upper, at_lower), k)
}

// So do the prices of a variable at both ends.
fn check_prices_of(start: &IntervalEnd, end: &IntervalEnd, k: u32) -> Result<(), Stop>
    requires { AreEnds start.now end.now k }
    ensures { Judges (verdict_of (kept_steps start.now end.now k)) result }
{
    let place = k as usize - 1;
    let first = start.prices[place];
    let last = end.prices[place];
    check_price(start, end, first, k)?;
    check_price(start, end, last, k)
}

// So do the prices of all variables.
fn check_kept(start: &IntervalEnd, end: &IntervalEnd) -> Result<(), Stop>
    requires { (k : ℕ) → IsVariable start.now.program.matrix k → AreEnds start.now end.now k }
    ensures { Judges
        (verdict_of
        (flat_map (kept_steps start.now end.now) (variables start.now.program.matrix))) result }
{
    for i in 0..start.program.number_of_variables() {
        check_prices_of(start, end, i + 1)?;
    }
    Ok(())
}

// An interval goes on; the first may be a point.
fn goes_on(from: Frac, to: Frac, is_first: bool) -> bool
    ensures { result ≡ (lt_ℚ from to || (is_first && eq_ℚ from to)) }
{
    from.is_less(to) || (is_first && is_equal(from, to))
}

/// An interval, and whether it is the first.
pub fn check_interval(
    alloc: Global,
    run: &SheetRun<'_, '_>,
    is_first: bool,
    interval: &Interval,
) -> Result<(), Stop>
    requires asked { IsAskedOf run.now.sheet run.now.request.now }
    requires counted { HasColumns run.now.sheet.lp.now interval.now.columns }
    ensures { Judges
        (interval_verdict (sheet_of run.now) (changing_in run.now) interval.now is_first
        run.now.request.now.to) result }
{
    let from = interval.from;
    let to = interval.to;
    ask(goes_on(from, to, is_first))?;
    ask(is_at_most(to, run.request.to))?;
    let start = check_end(alloc, run, from, &interval.columns)?;
    let end = check_end(alloc, run, to, &interval.columns)?;
    check_kept(&start, &end)
}

/// An interval in fractions.
pub fn interval_of(alloc: Global, from: &Number<'_>, part: &Part<'_>) -> Result<Interval, NoMemory>
    ensures { IfOk result (IsInterval from.now part.now) }
{
    let from = fraction(from)?;
    let to = fraction(&part.to)?;
    let columns = columns_of(alloc, &part.columns)?;
    Ok(Interval { from, to, columns })
}
