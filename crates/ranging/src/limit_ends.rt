//! How far the limit of a nonbasic may move until a basic reaches one of its own.

ghost use Rattle.std.specs.Prelude.{◌≡◌, ◌≢◌, ◌<◌, ◌≤◌, ◌^◌, ◌⊎◌, IfSome, IsSome, length, IfOk, IfErr, OnOk};
ghost use Rattle.exact_values.specs.Rational.{zero_ℚ, ◌≤ℚ◌};
ghost use Rattle.frac128.specs.declared.Op.TheVariants.{Sub};
ghost use Rattle.lp_definitions.specs.LinearProgram.{size, value_at, lower_of, upper_of, IsVariable};
ghost use Rattle.lp_definitions.specs.Basis.{status_of};
ghost use Rattle.simplex_definitions.specs.Ranges.{stands_at_limit};
ghost use Rattle.basis_values.specs.Formulas.{IsRefusal};
ghost use Rattle.basis_values.specs.Reach.{reach_formula};
ghost use Rattle.ranging.specs.LimitEnds.{less_value, distances_of, IsWithDistance, IsWithDistances, IsWithBasic, IsDistanceRefused, IsBasicRefused, AreMet};
ghost use Rattle.ranging.specs.LimitEnds.{IsLimitRefused, IsRateRefused};

use crate::choices::at_limit;
use affine_laws::{Ends, ProductBound, tightened};
use basis_values::reach::{distance_formula, length_formula};
use frac128::Frac;
use lp_model::{Basis, Evidence, Lp};

/// The limits of a basic, less its value.
#[derive(Clone, Copy)]
pub struct Distances {
    pub low: Option<Frac>,
    pub high: Option<Frac>,
}

/// The limit of `i` of this number, less the value.
fn distance(limit: Option<Frac>, value: Frac, i: u32, which: u32) -> Result<Option<Frac>, Evidence>
    ensures distance { IfOk result (λ far. far ≡ less_value value limit) }
    ensures refused { IfErr result
        (λ e. IfSome limit (λ l. IsRefusal (reach_formula 6 0 i which) Sub l value e)) }
    ensures there { IfErr result (λ e. IsSome limit) }
{
    let Some(there) = limit else {
        return Ok(None);
    };
    let far = distance_formula(i, which).difference(there, value)?;
    Ok(Some(far))
}

/// The limits of the basic `i`, less its value.
fn both_distances(lp: &Lp, value: Frac, i: u32) -> Result<Distances, Evidence>
    requires { IsVariable lp.now.matrix i }
    ensures distances { IfOk result (λ far. far ≡ distances_of lp.now value i) }
    ensures refused { IfErr result (IsLimitRefused lp.now value i) }
{
    let low = distance(lp.lower_limit(i), value, i, 1)?;
    let high = distance(lp.upper_limit(i), value, i, 2)?;
    Ok(Distances { low, high })
}

/// The rate of a basic at a nonbasic.
#[derive(Clone, Copy)]
struct TableauEntry {
    basic: u32,
    nonbasic: u32,
    rate: Frac,
}

impl TableauEntry {
    /// The ends with the bound of one limit of the basic, if it is there.
    fn with_distance(
        &self,
        at_most: bool,
        ends: Ends,
        far: Option<Frac>,
        which: u32,
    ) -> Result<Ends, Evidence>
        requires { self.now.rate ≢ zero_ℚ }
        ensures ends { IfOk result (IsWithDistance at_most far self.now.rate self.now.basic which
            ends) }
        ensures refused { IfErr result (IsDistanceRefused far self.now.rate self.now.basic
            self.now.nonbasic which) }
    {
        let Some(number) = far else {
            return Ok(ends);
        };
        let bound = ProductBound {
            at_most,
            slope: self.rate,
            number,
            by: self.basic,
            which,
        };
        match tightened(ends, &bound) {
            Ok(now) => Ok(now),
            Err(refused) => {
                Err(length_formula(self.nonbasic, self.basic, which).evidence(refused))
            }
        }
    }

    /// The ends with the bounds of both limits of the basic.
    fn with_distances(&self, ends: Ends, far: &Distances) -> Result<Ends, Evidence>
        requires { self.now.rate ≢ zero_ℚ }
        ensures ends { IfOk result (IsWithDistances far.now self.now.rate self.now.basic ends) }
        ensures refused { IfErr result (IsBasicRefused far.now self.now.rate self.now.basic
            self.now.nonbasic) }
    {
        let above = self.with_distance(false, ends, far.low, 1)?;
        let both = self.with_distance(true, above, far.high, 2)?;
        Ok(both)
    }

    /// The ends of the nonbasic with the bounds of the basic, where it stands at a limit.
    fn with_basic(&self, basis: &Basis, ends: Ends, far: &Distances) -> Result<Ends, Evidence>
        requires low { 1 ≤ self.now.nonbasic }
        requires high { self.now.nonbasic ≤ length basis.now }
        ensures ends { IfOk result
            (IsWithBasic (stands_at_limit (status_of basis.now self.now.nonbasic)) far.now
            self.now.rate self.now.basic ends) }
        ensures refused { IfErr result (IsBasicRefused far.now self.now.rate self.now.basic
            self.now.nonbasic) }
    {
        if self.rate.is_zero() {
            return Ok(ends);
        }
        if !at_limit(basis, self.nonbasic) {
            return Ok(ends);
        }
        let now = self.with_distances(ends, far)?;
        Ok(now)
    }
}

/// Tightens the ends of each nonbasic that stands at a limit by the limits of the basic `i`, whose rates are in `row`.
pub fn meet_limits(
    lp: &Lp,
    basis: &Basis,
    point: &[Frac],
    i: u32,
    row: &[Frac],
    ends: &mut [Ends],
) -> Result<(), Evidence>
    requires variable { IsVariable lp.now.matrix i }
    requires small { size lp.now.matrix < 2 ^ 32 }
    requires counted { length basis.now ≡ size lp.now.matrix }
    requires point { length point.now ≡ size lp.now.matrix }
    requires row { length row.now ≡ size lp.now.matrix }
    requires places { length ends.old ≡ size lp.now.matrix }
    requires low { IfSome (lower_of lp.now i) (λ l. l ≤ℚ value_at point.now i) }
    requires high { IfSome (upper_of lp.now i) (λ u. value_at point.now i ≤ℚ u) }
    ensures met { OnOk result (AreMet lp.now basis.now (value_at point.now i) (value_at row.now) i
        (size lp.now.matrix) ends.old ends.new) }
    ensures refused { IfErr result
        (λ e. IsLimitRefused lp.now (value_at point.now i) i e ⊎ IsRateRefused lp.now
        (value_at point.now i) (value_at row.now) i e) }
{
    let far = both_distances(lp, point[i as usize - 1], i)?;
    for k in 0..ends.len() {
        let entry = TableauEntry {
            basic: i,
            nonbasic: k as u32 + 1,
            rate: row[k],
        };
        let present = ends[k];
        let now = entry.with_basic(basis, present, &far)?;
        ends[k] = now;
    }
    Ok(())
}
