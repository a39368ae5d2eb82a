//! How fast the basis's point moves with the parameter.

ghost use Rattle.std.specs.Prelude.{◌≡◌, None, length, option_map, OnOk, IfOk, IfErr};
ghost use Rattle.lp_definitions.specs.LinearProgram.{size, value_at, IsVariable, IsLinearProgram};
ghost use Rattle.lp_model.specs.RatesCalls.{IfOverflow};
ghost use Rattle.basis_values.specs.Calls.{IsAtBasis, StaysAt};
ghost use Rattle.simplex_definitions.specs.RhsRun.{shift_of, IsSlope};
ghost use Rattle.para_rhs.specs.Limits.{limit_on};
ghost use Rattle.para_rhs.specs.Method.{FitsRhs};
ghost use Rattle.para_rhs.specs.Refusals.{RunRefused};
ghost use Rattle.para_rhs.specs.Slopes.{shifts_of, slope_program, slope_evidence};

use crate::limits::{Side, limit_on, shift_of};
use crate::method::RightHandSide;
use basis_values::point_of;
use frac128::Frac;
use lp_model::{Basis, Evidence, Lp, NoMemory, Rates, Stop};
use std::alloc::Global;

/// The shift of `k` in the place of its limit, if the limit is there.
fn shift_in_place(lp: &Lp, shift: &[Frac], side: Side, k: u32) -> Option<Frac>
    requires variable { IsVariable lp.now.matrix k }
    requires shifts { length shift.now ≡ lp.now.rows }
    ensures { result ≡ option_map (λ l. shift_of lp.now.matrix shift.now k)
        (limit_on lp.now side k) }
{
    match limit_on(lp, side, k) {
        Some(_) => Some(shift_of(lp, shift, k)),
        None => None,
    }
}

/// The shifts of all limits on one side, each in the place of its limit.
fn shifts_of(
    alloc: Global,
    lp: &Lp,
    shift: &[Frac],
    side: Side,
) -> Result<Vec<Option<Frac>>, NoMemory>
    requires { length shift.now ≡ lp.now.rows }
    ensures lawful { IsLinearProgram lp.now }
    ensures shifts { IfOk result (λ shifts. shifts.items ≡ shifts_of lp.now shift.now
        (limit_on lp.now side)) }
{
    let mut shifts = Vec::new(alloc);
    for k in 0..lp.number_of_variables() {
        let by = shift_in_place(lp, shift, side, k + 1);
        shifts.push(by).map_err(|_| NoMemory)?;
    }
    Ok(shifts)
}

/// The program whose limits are the shifts.
pub fn slope_program(alloc: Global, lp: &Lp, shift: &[Frac]) -> Result<Lp, NoMemory>
    requires { length shift.now ≡ lp.now.rows }
    ensures lawful { IsLinearProgram lp.now }
    ensures program { IfOk result (λ program. program ≡ slope_program lp.now shift.now) }
{
    let lower = shifts_of(alloc, lp, shift, Side::Lower)?;
    let upper = shifts_of(alloc, lp, shift, Side::Upper)?;
    lp.with_limits(alloc, lower, upper)
}

/// Evidence of a sum of the slope, where a sum of that program's point is refused.
fn slope_evidence(evidence: Evidence) -> Evidence
    ensures { result ≡ slope_evidence evidence }
{
    if evidence.formula == 10 {
        return Evidence {
            formula: 18,
            ..evidence
        };
    }
    evidence
}

impl RightHandSide<'_> {
    /// Fills `out`, which has a place for each variable, with the slope of the basis: at a nonbasic its shift, and at a basic the sum of
    /// its rates times these. An overflow comes only with evidence of it at this basis.
    pub fn slope<R: Rates>(
        &self,
        alloc: Global,
        basis: &Basis,
        rates: &mut R,
        out: &mut [Frac],
    ) -> Result<(), Stop>
        requires fits { FitsRhs self.now.lp.now self.now.shift.now self.now.moving.now }
        requires rates { IsAtBasis (R.state rates.old) self.now.lp.now basis.now }
        requires places { length out.old ≡ size self.now.lp.now.matrix }
        ensures slope { OnOk result (IsSlope self.now.lp.now basis.now self.now.shift.now
            (value_at out.new)) }
        ensures rates { StaysAt (R.state rates.old) (R.state rates.new) self.now.lp.now basis.now }
        ensures overflow { IfErr result (λ stop. IfOverflow stop (RunRefused self.now.lp.now
            self.now.shift.now basis.now (R.state rates.old).waypoints
            (R.state rates.new).waypoints)) }
    {
        match point_of(alloc, self.moving, basis, rates, out) {
            Ok(()) => Ok(()),
            Err(Stop::Overflow(evidence)) => Err(Stop::Overflow(slope_evidence(evidence))),
            Err(Stop::NoMemory) => Err(Stop::NoMemory),
        }
    }
}
