//! Who leaves its limits at a breakpoint.

ghost use Rattle.std.specs.Prelude.{◌≡◌, ◌≢◌, length, List, IfOk, IfErr, OnErr};
ghost use Rattle.exact_values.specs.Rational.{◌*ℚ◌};
ghost use Rattle.exact_values.specs.Tests.{eq_ℚ};
ghost use Rattle.lp_definitions.specs.LinearProgram.{size, value_at, IsVariable, IsLinearProgram};
ghost use Rattle.lp_definitions.specs.Basis.{Basics};
ghost use Rattle.simplex_laws.specs.Laws.{IsNonsingularBasis};
ghost use Rattle.simplex_definitions.specs.RhsRun.{shift_of};
ghost use Rattle.parametric_run.specs.Standing.{IsWorkspaceOf};
ghost use Rattle.para_rhs.specs.Breaks.{leaving_side, IsLeaverOf, IsFaceLeaver};
ghost use Rattle.para_rhs.specs.Method.{rhs_problem, FitsRhs};
ghost use Rattle.para_rhs.specs.Reach.{VariableRefused, SomeVariableRefused};
ghost use Rattle.para_rhs.specs.Refusals.{RunRefused};

use crate::limits::Side;
use crate::method::RightHandSide;
use crate::reaching::approach_of;
use frac128::Frac;
use lp_model::{Basis, Evidence, Lp, Ratio};
use parametric_run::Workspace;

/// A basic that stands at a limit which it would break beyond the breakpoint.
#[derive(Clone, Copy, Debug)]
pub struct Leaver {
    pub r: u32,
    pub side: Side,
}

/// Whether the distance is the product. A product that is refused isn't a distance, which fits: nothing stops this.
fn is_product(theta: Frac, closing: Frac, distance: Frac) -> bool
    ensures { result ≡ eq_ℚ (theta *ℚ closing) distance }
{
    match theta.mul(closing) {
        Ok(product) => product.compare(distance).is_eq(),
        Err(_refused) => false,
    }
}

/// The limit at which `k` stands at theta and which it would break beyond, if there is one.
fn leaving_side(
    lp: &Lp,
    shift: &[Frac],
    value: Frac,
    slope: Frac,
    theta: Frac,
    k: u32,
) -> Result<Option<Side>, Evidence>
    requires variable { IsVariable lp.now.matrix k }
    requires shifts { length shift.now ≡ lp.now.rows }
    ensures side { IfOk result (λ found. found ≡ leaving_side lp.now shift.now theta (λ _. value)
        (λ _. slope) k) }
    ensures moves { OnErr result (slope ≢ shift_of lp.now.matrix shift.now k) }
    ensures refused { IfErr result (VariableRefused lp.now shift.now (λ _. value) (λ _. slope) k) }
{
    let Some(approach) = approach_of(lp, shift, value, slope, k)? else {
        return Ok(None);
    };
    if is_product(theta, approach.closing, approach.distance) {
        return Ok(Some(approach.side));
    }
    Ok(None)
}

/// The least-numbered variable with such a limit.
fn leaver_by(
    lp: &Lp,
    shift: &[Frac],
    value: &[Ratio],
    slope: &[Frac],
    theta: Frac,
) -> Result<Option<Leaver>, Evidence>
    requires shifts { length shift.now ≡ lp.now.rows }
    requires values { length value.now ≡ size lp.now.matrix }
    requires slopes { length slope.now ≡ size lp.now.matrix }
    ensures lawful { IsLinearProgram lp.now }
    ensures leaver { IfOk result (IsLeaverOf lp.now shift.now theta (value_at value.now)
        (value_at slope.now)) }
    ensures refused { IfErr result (SomeVariableRefused lp.now shift.now (value_at value.now)
        (value_at slope.now)) }
{
    for k in 0..lp.number_of_variables() {
        let here = value[k as usize].reduced();
        let rate = slope[k as usize];
        if let Some(side) = leaving_side(lp, shift, here, rate, theta, k + 1)? {
            return Ok(Some(Leaver { r: k + 1, side }));
        }
    }
    Ok(None)
}

/// The least-numbered basic that stands at a limit at theta which it would break beyond. An overflow comes only with evidence of it at
/// this basis.
pub fn face_leaver(
    method: &RightHandSide<'_>,
    basis: &Basis,
    workspace: &Workspace,
    theta: Frac,
) -> Result<Option<Leaver>, Evidence>
    requires fits { FitsRhs method.now.lp.now method.now.shift.now method.now.moving.now }
    requires basis { IsNonsingularBasis method.now.lp.now basis.now }
    requires workspace { IsWorkspaceOf (rhs_problem method.now.lp.now method.now.shift.now)
        basis.now workspace.now }
    ensures leaver { IfOk result
        (IsFaceLeaver method.now.lp.now method.now.shift.now theta basis.now) }
    ensures overflow { IfErr result (λ e. (before : List Basics) (after : List Basics) → RunRefused
        method.now.lp.now method.now.shift.now basis.now before after e) }
{
    let value = workspace.point.as_slice();
    let slope = workspace.change.as_slice();
    match leaver_by(method.lp, method.shift, value, slope, theta) {
        Ok(found) => Ok(found),
        Err(evidence) => Err(evidence),
    }
}
