// The intervals of a report of ranges, as values of table lines.
ghost use Rattle.std.specs.Prelude.{◌≡◌};
ghost use Rattle.listing_tables.specs.Values.{value_view};
ghost use Rattle.listing_tables.specs.Intervals.{interval_at, low_value, high_value};

use crate::line::Value;
use lp_model::{Interval, Intervals};

/// The interval of variable `k`, if it has one.
pub fn interval_of(intervals: &Intervals, k: u32) -> Option<Interval>
    ensures { result ≡ interval_at intervals.now k }
{
    for item in intervals.items() {
        if item.0 == k {
            return Some(item.1);
        }
    }
    None
}

/// The low end of an interval, or a dash where there is none.
pub fn low_end(interval: &Option<Interval>) -> Value
    ensures { value_view result ≡ low_value interval.now }
{
    match interval {
        Some(interval) => Value::limit(interval.low),
        None => Value::Dash,
    }
}

/// The high end of an interval, or a dash where there is none.
pub fn high_end(interval: &Option<Interval>) -> Value
    ensures { value_view result ≡ high_value interval.now }
{
    match interval {
        Some(interval) => Value::limit(interval.high),
        None => Value::Dash,
    }
}
