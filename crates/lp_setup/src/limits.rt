// The limits of a row and of a column.
ghost use Rattle.std.specs.Prelude.{◌≡◌, ◌<◌, false, IfOk, IfErr, option_map};
ghost use Rattle.exact_values.specs.Rational.{ℚ, zero_ℚ};
ghost use Rattle.exact_values.specs.Tests.{lt_ℚ, magnitude as the_magnitude};
ghost use Rattle.frac128.specs.Operations.{refuses};
ghost use Rattle.check_definitions.specs.declared.Verdict.TheVariants.{Checked};
ghost use Rattle.check_definitions.specs.Steps.{verdict_of};
ghost use Rattle.selection_definitions.specs.Making.{range_steps};
ghost use Rattle.selection_definitions.specs.Limits.{with_range, without_range as limits_without, row_limits as limits_of, bounded as limits_by};
ghost use Rattle.selection_definitions.specs.Limits.{unbounded as standing};
ghost use Rattle.lp_setup.specs.Parts.{IsSumRefusal, IsRangeSumRefusal};

use frac128::{Frac, Op, Refused};
use problem_definitions::{BoundKind, RowKind};
use problem_file::BoundItem;
use std::marker::Model;

/// A lower and an upper limit, or none.
#[derive(Clone, Copy, Debug)]
pub struct Limits {
    pub lower: Option<Frac>,
    pub upper: Option<Frac>,
}

impl Model for Limits {
    ghost use Rattle.selection_definitions.specs.Limits.{Limits as Pair};

    ghost Value = { Pair };

    ghost view = { λ limits. record { lower = limits.lower; upper = limits.upper } };

    ghost inverse = { λ limits. record { lower = limits.lower; upper = limits.upper } };
}

// ---- rows

/// Whether a number is below 0.
fn is_negative(value: Frac) -> bool
    ensures { result ≡ lt_ℚ value zero_ℚ }
{
    value.compare(Frac::whole(0)).is_lt()
}

/// A number without its sign.
fn magnitude(value: Frac) -> Frac
    ensures { result ≡ the_magnitude value }
{
    if is_negative(value) {
        value.neg()
    } else {
        value
    }
}

/// From the right-hand side up to so much above it.
fn up_from(side: Frac, size: Frac) -> Result<Limits, Refused>
    ensures limits { IfOk result (λ limits. limits ≡ with_range Op.Add side size) }
    ensures made { IfOk result (λ _. refuses Op.Add side size ≡ false) }
    ensures refused { IfErr result (IsSumRefusal Op.Add side size) }
{
    let sum = side.add(size)?;
    Ok(Limits {
        lower: Some(side),
        upper: Some(sum),
    })
}

/// From so much below the right-hand side up to it.
fn down_from(side: Frac, size: Frac) -> Result<Limits, Refused>
    ensures limits { IfOk result (λ limits. limits ≡ with_range Op.Sub side size) }
    ensures made { IfOk result (λ _. refuses Op.Sub side size ≡ false) }
    ensures refused { IfErr result (IsSumRefusal Op.Sub side size) }
{
    let difference = side.sub(size)?;
    Ok(Limits {
        lower: Some(difference),
        upper: Some(side),
    })
}

/// The limits of a row that has no range.
fn without_range(kind: RowKind, side: Frac) -> Limits
    ensures { result ≡ limits_without kind side }
{
    match kind {
        RowKind::N => Limits {
            lower: None,
            upper: None,
        },
        RowKind::G => Limits {
            lower: Some(side),
            upper: None,
        },
        RowKind::L => Limits {
            lower: None,
            upper: Some(side),
        },
        RowKind::E => Limits {
            lower: Some(side),
            upper: Some(side),
        },
    }
}

/// The limits of a row by its type, its right-hand side and its range, if it has one. A range widens the limits by its
/// magnitude; for an E row its sign says to which side.
pub fn row_limits(kind: RowKind, side: Frac, range: Option<Frac>) -> Result<Limits, Refused>
    ensures limits { IfOk result (λ limits. limits ≡ limits_of kind side range) }
    ensures made { IfOk result (λ _. verdict_of (range_steps kind side range) ≡ Checked) }
    ensures refused { IfErr result (IsRangeSumRefusal kind side range) }
{
    let Some(range) = range else {
        return Ok(without_range(kind, side));
    };
    let size = magnitude(range);
    match kind {
        RowKind::N => Ok(without_range(kind, side)),
        RowKind::G => up_from(side, size),
        RowKind::L => down_from(side, size),
        RowKind::E => {
            if is_negative(range) {
                return down_from(side, size);
            }
            up_from(side, size)
        }
    }
}

// ---- columns

/// The limits of a column without bounds: 0 and upward.
pub fn unbounded() -> Limits
    ensures { result ≡ standing }
{
    Limits {
        lower: Some(Frac::whole(0)),
        upper: None,
    }
}

/// The limits with this bound applied to them.
pub fn bounded(bound: &BoundItem, limits: Limits) -> Limits
    ensures { result ≡ limits_by bound.now.kind (option_map (λ value. value.value)
        bound.now.value) limits }
{
    let value = bound.value.map(|value| value.value());
    match bound.kind {
        BoundKind::Up => Limits {
            lower: limits.lower,
            upper: value,
        },
        BoundKind::Lo => Limits {
            lower: value,
            upper: limits.upper,
        },
        BoundKind::Fx => {
            let lower = value;
            Limits {
                lower,
                upper: value,
            }
        }
        BoundKind::Fr => Limits {
            lower: None,
            upper: None,
        },
        BoundKind::Mi => Limits {
            lower: None,
            upper: limits.upper,
        },
        BoundKind::Pl => Limits {
            lower: limits.lower,
            upper: None,
        },
    }
}
