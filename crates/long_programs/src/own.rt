// A linear program as it is, with the change row that it has.
ghost use Rattle.std.specs.Prelude.{◌≡◌, List, IfOk};
ghost use Rattle.exact_values.specs.Rational.{ℚ};
ghost use Rattle.long_vectors.specs.Vectors.{IsValue, IsOver};
ghost use Rattle.long_programs.specs.Programs.{program_of, IsChangeIn, IsPlain, own_theta};
ghost use Rattle.long_programs.specs.Places.{IsSpread};

use crate::programs::{ChangeAt, ProgramAt};
use crate::spreads::{Spread, spread_by};
use exact_sums::{denominator_of, numerator_of};
use frac128::Frac;
use integers::Integer;
use listing_words::Allowance;
use long_vectors::{Column, Value};
use lp_model::Lp;
use std::alloc::{AllocError, Global};

// A fraction as a whole number over another one.
fn fraction_value(alloc: Global, fraction: Frac) -> Result<Value, AllocError>
    ensures { IfOk result (IsValue fraction) }
{
    let top = numerator_of(alloc, fraction)?;
    let below = denominator_of(alloc, fraction)?;
    let bottom = Integer::new(false, below);
    Ok(Value { top, bottom })
}

/// A linear program as it is: what changes is the change row that it has.
pub fn as_it_is(lp: &Lp) -> ProgramAt<'_>
    ensures program { result.lp.now ≡ lp.now }
    ensures same { program_of lp.now result.change (own_theta lp.now) ≡ lp.now }
    ensures change { IsChangeIn lp.now result.change }
    ensures plain { IsPlain lp.now result.change }
{
    let _size = lp.number_of_variables();
    match lp.change {
        None => ProgramAt {
            lp,
            change: ChangeAt::Unchanged,
        },
        Some(change) => ProgramAt {
            lp,
            change: ChangeAt::Row(change.row),
        },
    }
}

/// Theta of the change row that a linear program has, or 0.
pub fn own_theta(alloc: Global, lp: &Lp) -> Result<Value, AllocError>
    ensures { IfOk result (IsValue (own_theta lp.now)) }
{
    match lp.change {
        None => fraction_value(alloc, Frac::whole(0)),
        Some(change) => fraction_value(alloc, change.theta),
    }
}

/// A vector over a denominator over which theta of the change row that a linear program has is a whole number too.
pub fn spread_own(
    alloc: Global,
    lp: &Lp,
    column: Column,
    allowance: &mut Allowance,
) -> Result<Spread, AllocError>
    ensures { IfOk result
        (λ made. (values : List ℚ) → IsOver values column →
        IsSpread values (own_theta lp.now) made) }
{
    let theta = own_theta(alloc, lp)?;
    let made = spread_by(alloc, &theta, &column, allowance)?;
    Ok(made)
}
