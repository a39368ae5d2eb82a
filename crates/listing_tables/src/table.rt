// The tables that are printed of a linear program.
ghost use Rattle.std.specs.Prelude.{◌≡◌, ◌<◌, ◌≤◌, ◌+◌, ◌-◌, ℕ, None, length, map};
ghost use Rattle.std.specs.List.{flat_map};
ghost use Rattle.job_devices.specs.Text.{Writes};
ghost use Rattle.lp_definitions.specs.LinearProgram.{IsVariable, numbers_from};
ghost use Rattle.listing_tables.specs.Intervals.{ends_at};
ghost use Rattle.listing_tables.specs.Lines.{multiplier_values, pair_values, standing_values, ranged_values, cost_values};
ghost use Rattle.listing_tables.specs.Tables.{IsStanding, IsRanging, HasLine, is_printed, line_values, line_view};
ghost use Rattle.listing_tables.specs.Values.{value_view};

use crate::intervals::{high_end, interval_of, low_end};
use crate::line::{Value, put_line};
use crate::sheet::{Sheet, at_in_part, at_of, is_at_limit, is_between, name_of};
use frac128::Frac;
use job_devices::{Sink, WriteStop, put_all};
use lp_model::{Basis, Intervals, ParaPart, Point, Prices, RangeReport};

/// A basis with its point and its prices, and the slacks of its rows.
#[derive(Clone, Copy, Debug)]
pub struct Standing<'a> {
    pub basis: &'a Basis,
    pub point: &'a Point,
    pub prices: &'a Prices,
    pub slack: &'a [Frac],
}

/// A basis with its point, and the intervals in which it stays optimal.
#[derive(Clone, Copy, Debug)]
pub struct Ranging<'a> {
    pub basis: &'a Basis,
    pub point: &'a Point,
    pub report: &'a RangeReport,
}

/// What stands in the lines of a table.
#[derive(Clone, Copy, Debug)]
pub enum Table<'a> {
    /// The multiplier of each variable, where it isn't 0.
    Multipliers(&'a [Frac]),
    /// Two values of each variable.
    Pairs(&'a [Frac], &'a [Frac]),
    /// Where each row stands.
    Rows(Standing<'a>),
    /// Where each column stands.
    Columns(Standing<'a>),
    /// The interval of the limit at which each nonbasic row stands.
    LimitRows(Ranging<'a>),
    /// The intervals of the limit and the cost of each nonbasic column.
    LimitColumns(Ranging<'a>),
    /// The interval of the multiple of each basic row but the objective.
    BetweenRows(Ranging<'a>),
    /// The interval of the cost of each basic column.
    BetweenColumns(Ranging<'a>),
    /// Where each variable stands in an interval of a parametric run, and its value and its price, each with its rate.
    Parts(&'a ParaPart),
}

// The value on the line of a variable in a vector of multipliers.
fn multiplier_values(ray: &[Frac], k: u32) -> [Value; 1]
    requires first { 1 ≤ k }
    requires last { k ≤ length ray.now }
    ensures { map value_view result ≡ multiplier_values ray.now k }
{
    [Value::Number(ray[k as usize - 1])]
}

// The values on the line of a variable in two vectors.
fn pair_values(first: &[Frac], second: &[Frac], k: u32) -> [Value; 2]
    requires variable { 1 ≤ k }
    requires first { k ≤ length first.now }
    requires second { k ≤ length second.now }
    ensures { map value_view result ≡ pair_values first.now second.now k }
{
    let place = k as usize - 1;
    [Value::Number(first[place]), Value::Number(second[place])]
}

// The values on the line of a variable in SOLUTION, with this one at the third place.
fn standing_values(sheet: Sheet<'_>, standing: Standing<'_>, third: Frac, k: u32) -> [Value; 6]
    requires listed { IsStanding sheet standing }
    requires variable { IsVariable sheet.lp.now.matrix k }
    ensures { map value_view result ≡ standing_values sheet.entry.lp.now standing.entry.basis.now
        standing.entry.point.now standing.entry.prices.now third k }
{
    let place = k as usize - 1;
    let point = standing.point.values();
    let prices = standing.prices.values();
    [
        Value::Code(at_of(sheet.lp, standing.basis, point, k)),
        Value::Number(point[place]),
        Value::Number(third),
        Value::limit(sheet.lp.lower_limit(k)),
        Value::limit(sheet.lp.upper_limit(k)),
        Value::Number(prices[place]),
    ]
}

// The values on the line of a row.
fn row_values(sheet: Sheet<'_>, standing: Standing<'_>, k: u32) -> [Value; 6]
    requires { HasLine sheet (Table.Rows standing) k }
    ensures { map value_view result ≡ line_values sheet.entry (Table.Rows standing.entry) k }
{
    standing_values(sheet, standing, standing.slack[k as usize - 1], k)
}

// The values on the line of a column.
fn column_values(sheet: Sheet<'_>, standing: Standing<'_>, k: u32) -> [Value; 6]
    requires { HasLine sheet (Table.Columns standing) k }
    ensures { map value_view result ≡ line_values sheet.entry (Table.Columns standing.entry) k }
{
    let lp = sheet.lp;
    standing_values(sheet, standing, lp.cost(k - lp.rows), k)
}

// Where a variable stands, its activity, and the ends of its interval among these.
fn interval_values(sheet: Sheet<'_>, ranging: Ranging<'_>, among: &Intervals, k: u32) -> [Value; 4]
    requires listed { IsRanging sheet ranging }
    requires variable { IsVariable sheet.lp.now.matrix k }
    ensures { map value_view result ≡ ranged_values sheet.entry.lp.now ranging.entry.basis.now
        ranging.entry.point.now ranging.entry.report.now (ends_at among.now) k }
{
    let point = ranging.point.values();
    let interval = interval_of(among, k);
    [
        Value::Code(at_of(sheet.lp, ranging.basis, point, k)),
        Value::Number(point[k as usize - 1]),
        low_end(&interval),
        high_end(&interval),
    ]
}

// The cost of a column, and the ends of its interval.
fn cost_values(sheet: Sheet<'_>, ranging: Ranging<'_>, k: u32) -> [Value; 3]
    requires no_change { sheet.lp.now.change ≡ None }
    requires variable { IsVariable sheet.lp.now.matrix k }
    requires column { sheet.lp.now.matrix.rows < k }
    ensures { map value_view result ≡ cost_values sheet.entry.lp.now ranging.entry.basis.now
        ranging.entry.point.now ranging.entry.report.now k }
{
    let lp = sheet.lp;
    let costs = interval_of(&ranging.report.costs, k);
    [
        Value::Number(lp.cost(k - lp.rows)),
        low_end(&costs),
        high_end(&costs),
    ]
}

// The values on the line of a nonbasic column.
fn limit_column_values(sheet: Sheet<'_>, ranging: Ranging<'_>, k: u32) -> [Value; 7]
    requires { HasLine sheet (Table.LimitColumns ranging) k }
    ensures { map value_view result ≡ line_values sheet.entry
        (Table.LimitColumns ranging.entry) k }
{
    let [at, activity, low, high] = interval_values(sheet, ranging, &ranging.report.limits, k);
    let [cost, cost_low, cost_high] = cost_values(sheet, ranging, k);
    [at, activity, low, high, cost, cost_low, cost_high]
}

// The values on the line of a basic column.
fn between_column_values(sheet: Sheet<'_>, ranging: Ranging<'_>, k: u32) -> [Value; 5]
    requires { HasLine sheet (Table.BetweenColumns ranging) k }
    ensures { map value_view result ≡ line_values sheet.entry
        (Table.BetweenColumns ranging.entry) k }
{
    let point = ranging.point.values();
    let at = at_of(sheet.lp, ranging.basis, point, k);
    let [cost, low, high] = cost_values(sheet, ranging, k);
    [
        Value::Code(at),
        Value::Number(point[k as usize - 1]),
        cost,
        low,
        high,
    ]
}

// The values on the line of a variable in an interval of a parametric run.
fn part_values(sheet: Sheet<'_>, part: &ParaPart, k: u32) -> [Value; 5]
    requires { HasLine sheet (Table.Parts part) k }
    ensures { map value_view result ≡ line_values sheet.entry (Table.Parts part.entry) k }
{
    let place = k as usize - 1;
    let value = part.value.values();
    let value_rate = part.value_rate.values();
    let price = part.price.values();
    let price_rate = part.price_rate.values();
    [
        Value::Code(at_in_part(sheet.lp, &part.statuses, k)),
        Value::Number(value[place]),
        Value::Number(value_rate[place]),
        Value::Number(price[place]),
        Value::Number(price_rate[place]),
    ]
}

// Whether the table has a line for variable `k`.
fn is_printed(sheet: Sheet<'_>, table: Table<'_>, k: u32) -> bool
    requires { HasLine sheet table k }
    ensures { result ≡ is_printed sheet.entry table.entry k }
{
    match table {
        Table::Multipliers(ray) => !ray[k as usize - 1].compare(Frac::whole(0)).is_eq(),
        Table::Pairs(_, _) | Table::Rows(_) | Table::Columns(_) | Table::Parts(_) => true,
        Table::LimitRows(ranging) | Table::LimitColumns(ranging) => is_at_limit(ranging.basis, k),
        Table::BetweenRows(ranging) | Table::BetweenColumns(ranging) => {
            is_between(sheet.lp, ranging.basis, k)
        }
    }
}

// The line of variable `k`, if it has one.
fn put_table_line<P: Sink>(
    print: &mut P,
    sheet: Sheet<'_>,
    table: Table<'_>,
    k: u32,
) -> Result<(), WriteStop>
    requires { HasLine sheet table k }
    ensures { Writes (P.taken print.old) (P.taken print.new) result
        (line_view sheet.entry table.entry k) }
{
    if !is_printed(sheet, table, k) {
        return put_all(print, b"");
    }
    let name = name_of(sheet, k);
    match table {
        Table::Multipliers(ray) => put_line(print, k, name, &multiplier_values(ray, k)),
        Table::Pairs(first, second) => put_line(print, k, name, &pair_values(first, second, k)),
        Table::Rows(standing) => put_line(print, k, name, &row_values(sheet, standing, k)),
        Table::Columns(standing) => put_line(print, k, name, &column_values(sheet, standing, k)),
        Table::LimitRows(at) => put_line(
            print,
            k,
            name,
            &interval_values(sheet, at, &at.report.limits, k),
        ),
        Table::LimitColumns(at) => put_line(print, k, name, &limit_column_values(sheet, at, k)),
        Table::BetweenRows(at) => put_line(
            print,
            k,
            name,
            &interval_values(sheet, at, &at.report.rows, k),
        ),
        Table::BetweenColumns(at) => put_line(print, k, name, &between_column_values(sheet, at, k)),
        Table::Parts(part) => put_line(print, k, name, &part_values(sheet, part, k)),
    }
}

/// Writes the lines of the variables after the first ones, up to the last of these.
pub fn put_table<P: Sink>(
    print: &mut P,
    sheet: Sheet<'_>,
    table: Table<'_>,
    first: u32,
    last: u32,
) -> Result<(), WriteStop>
    requires ordered { first ≤ last }
    requires lines { (k : ℕ) → first < k → k ≤ last → HasLine sheet table k }
    ensures { Writes (P.taken print.old) (P.taken print.new) result
        (flat_map (line_view sheet.entry table.entry) (numbers_from (first + 1) (last - first))) }
{
    for k in first..last {
        put_table_line(print, sheet, table, k + 1)?;
    }
    Ok(())
}
