//! The comparisons of a check.

ghost use Rattle.std.specs.Prelude.{◌≡◌, ◌&&◌};
ghost use Rattle.exact_values.specs.Rational.{zero_ℚ, compare_ℚ};
ghost use Rattle.exact_values.specs.Tests.{eq_ℚ};
ghost use Rattle.lp_definitions.specs.LinearProgram.{for_min};
ghost use Rattle.check_definitions.specs.Checks.{is_not_below, is_not_above, is_at, is_crossed, by_sign};

use frac128::Frac;
use lp_model::Sense;
use std::cmp::Ordering;

/// Whether two numbers are equal.
pub fn is_equal(x: Frac, y: Frac) -> bool
    ensures { result ≡ eq_ℚ x y }
{
    x == y
}

/// The value is not below the lower limit and not above the upper one.
pub fn is_within(lower: Option<Frac>, upper: Option<Frac>, value: Frac) -> bool
    ensures { result ≡ (is_not_below lower value && is_not_above upper value) }
{
    lower.is_none_or(|limit| !value.is_less(limit))
        && upper.is_none_or(|limit| !limit.is_less(value))
}

/// The limit is there, and it is the value.
pub fn stands_at(limit: Option<Frac>, value: Frac) -> bool
    ensures { result ≡ is_at limit value }
{
    limit.is_some_and(|limit| is_equal(limit, value))
}

/// Both limits are there, and the lower one is greater.
pub fn is_crossed_by(lower: Option<Frac>, upper: Option<Frac>) -> bool
    ensures { result ≡ is_crossed lower upper }
{
    match (lower, upper) {
        (Some(low), Some(high)) => high.is_less(low),
        _ => false,
    }
}

/// What is asked of a negative number, and what of a positive one.
pub fn holds_by_sign(x: Frac, negative: bool, positive: bool) -> bool
    ensures { result ≡ by_sign (compare_ℚ x zero_ℚ) negative positive }
{
    match x.compare(Frac::whole(0)) {
        Ordering::Less => negative,
        Ordering::Equal => true,
        Ordering::Greater => positive,
    }
}

/// The number as it counts where less is better.
pub fn counted_for(sense: Sense, x: Frac) -> Frac
    ensures { result ≡ for_min sense x }
{
    match sense {
        Sense::Min => x,
        Sense::Max => x.neg(),
    }
}
