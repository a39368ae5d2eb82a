//! How far a basis stays optimal.

ghost use Rattle.std.specs.Prelude.{◌≡◌, ◌≢◌, length, List, IsSome, IfOk, IfErr, OnErr};
ghost use Rattle.exact_values.specs.Rational.{zero_ℚ};
ghost use Rattle.affine_laws.specs.Ends.{IsTightened};
ghost use Rattle.frac128.specs.declared.Op.TheVariants.{Div};
ghost use Rattle.lp_definitions.specs.LinearProgram.{size, value_at, IsVariable, IsLinearProgram};
ghost use Rattle.lp_definitions.specs.Basis.{Basics};
ghost use Rattle.simplex_laws.specs.Laws.{IsNonsingularBasis};
ghost use Rattle.simplex_definitions.specs.RhsRun.{shift_of};
ghost use Rattle.basis_values.specs.Formulas.{IsRefusal};
ghost use Rattle.parametric_run.specs.Standing.{IsWorkspaceOf};
ghost use Rattle.para_rhs.specs.Limits.{number_of};
ghost use Rattle.para_rhs.specs.Method.{rhs_problem, FitsRhs};
ghost use Rattle.para_rhs.specs.Reach.{side_ahead, bound_of, IsApproachOf, limit_sides, IsNarrowed, high_of, IsReachOf, IsReachFromAny, basic_formula};
ghost use Rattle.para_rhs.specs.Reach.{VariableRefused, SomeVariableRefused};
ghost use Rattle.para_rhs.specs.Refusals.{RunRefused};

use crate::limits::{Side, is_upper, limit_on, number_of, shift_of};
use crate::method::RightHandSide;
use affine_laws::{Endpoint, Ends, ProductBound, tightened};
use basis_values::Formula;
use frac128::Frac;
use lp_model::{Basis, Evidence, Lp, Ratio};
use parametric_run::Workspace;

/// Formula 6 or 18 of the basic `i`.
fn formula(number: u8, i: u32, term: u32) -> Formula
    ensures { result ≡ basic_formula number i term }
{
    Formula {
        number,
        p: 0,
        q: 0,
        i,
        j: 0,
        term,
        theta: Frac::whole(0),
    }
}

/// The side of the limit to which a variable of this slope comes, where its limits have this shift.
fn side_ahead(slope: Frac, by: Frac) -> Option<Side>
    ensures { result ≡ side_ahead slope by }
{
    if slope.is_less(by) {
        return Some(Side::Lower);
    }
    if by.is_less(slope) {
        return Some(Side::Upper);
    }
    None
}

/// The way of a variable to the limit on a side: how fast it closes in on the limit, and how far it is from it at 0.
#[derive(Clone, Copy, Debug)]
pub struct Approach {
    pub side: Side,
    pub closing: Frac,
    pub distance: Frac,
}

/// The way of `k` to the limit that it comes to, if there is one.
pub fn approach_of(
    lp: &Lp,
    shift: &[Frac],
    value: Frac,
    slope: Frac,
    k: u32,
) -> Result<Option<Approach>, Evidence>
    requires variable { IsVariable lp.now.matrix k }
    requires shifts { length shift.now ≡ lp.now.rows }
    ensures approach { IfOk result (IsApproachOf lp.now shift.now (λ _. value) (λ _. slope) k) }
    ensures moves { OnErr result (slope ≢ shift_of lp.now.matrix shift.now k) }
    ensures refused { IfErr result (VariableRefused lp.now shift.now (λ _. value) (λ _. slope) k) }
{
    let by = shift_of(lp, shift, k);
    let Some(side) = side_ahead(slope, by) else {
        return Ok(None);
    };
    let Some(limit) = limit_on(lp, side, k) else {
        return Ok(None);
    };
    let closing = formula(18, k, 0).difference(slope, by)?;
    let distance = formula(6, k, number_of(side)).difference(limit, value)?;
    Ok(Some(Approach {
        side,
        closing,
        distance,
    }))
}

/// The bound that the limit ahead makes on theta: theta times the closing is at most the distance to an upper limit, and at least
/// that to a lower one.
fn bound(approach: &Approach, k: u32) -> ProductBound
    ensures { result ≡ bound_of approach.now.side approach.now.closing approach.now.distance k }
{
    ProductBound {
        at_most: is_upper(approach.side),
        slope: approach.closing,
        number: approach.distance,
        by: k,
        which: number_of(approach.side),
    }
}

/// The ends with the bound of `k`, whose closing isn't 0.
fn with_bound(ends: Ends, approach: &Approach, k: u32) -> Result<Ends, Evidence>
    requires { approach.now.closing ≢ zero_ℚ }
    ensures ends { IfOk result (IsTightened ends (bound_of approach.now.side approach.now.closing
        approach.now.distance k)) }
    ensures refused { IfErr result (IsRefusal (basic_formula 18 k (number_of approach.now.side)) Div
        approach.now.distance approach.now.closing) }
{
    match tightened(ends, &bound(approach, k)) {
        Ok(now) => Ok(now),
        Err(refused) => Err(formula(18, k, number_of(approach.side)).evidence(refused)),
    }
}

/// The ends with the bound of `k`, where it comes to a limit.
fn with_variable(
    lp: &Lp,
    shift: &[Frac],
    ends: Ends,
    value: Frac,
    slope: Frac,
    k: u32,
) -> Result<Ends, Evidence>
    requires variable { IsVariable lp.now.matrix k }
    requires shifts { length shift.now ≡ lp.now.rows }
    ensures narrowed { IfOk result
        (IsNarrowed (limit_sides lp.now shift.now (λ _. value) (λ _. slope) k) ends) }
    ensures high { IfOk result (λ now. IsSome ends.high → IsSome now.high) }
    ensures moves { OnErr result (slope ≢ shift_of lp.now.matrix shift.now k) }
    ensures refused { IfErr result (VariableRefused lp.now shift.now (λ _. value) (λ _. slope) k) }
{
    let Some(approach) = approach_of(lp, shift, value, slope, k)? else {
        return Ok(ends);
    };
    match with_bound(ends, &approach, k) {
        Ok(now) => Ok(now),
        Err(evidence) => Err(evidence),
    }
}

/// The upper end, or else `max`.
fn high_end(ends: &Ends, max: Frac) -> Frac
    ensures { result ≡ high_of ends.now max }
{
    match ends.high {
        Some(end) => end.value,
        None => max,
    }
}

/// The ends that `max` and the variables make.
fn ends_by(
    lp: &Lp,
    shift: &[Frac],
    value: &[Ratio],
    slope: &[Frac],
    max: Frac,
) -> Result<Ends, Evidence>
    requires shifts { length shift.now ≡ lp.now.rows }
    requires values { length value.now ≡ size lp.now.matrix }
    requires slopes { length slope.now ≡ size lp.now.matrix }
    ensures lawful { IsLinearProgram lp.now }
    ensures reach { IfOk result (IsReachOf lp.now shift.now (value_at value.now)
        (value_at slope.now) (size lp.now.matrix) max) }
    ensures high { IfOk result (λ ends. IsSome ends.high) }
    ensures refused { IfErr result (SomeVariableRefused lp.now shift.now (value_at value.now)
        (value_at slope.now)) }
{
    let mut ends = Ends {
        low: None,
        high: Some(Endpoint {
            value: max,
            by: 0,
            which: 0,
        }),
    };
    for k in 0..lp.number_of_variables() {
        let here = value[k as usize].reduced();
        let rate = slope[k as usize];
        ends = with_variable(lp, shift, ends, here, rate, k + 1)?;
    }
    Ok(ends)
}

/// The greatest theta up to `max` to which the basis stays optimal, from any theta at which it is. An overflow comes only with evidence
/// of it at this basis.
pub fn reach(
    method: &RightHandSide<'_>,
    basis: &Basis,
    workspace: &Workspace,
    max: Frac,
) -> Result<Frac, Evidence>
    requires fits { FitsRhs method.now.lp.now method.now.shift.now method.now.moving.now }
    requires basis { IsNonsingularBasis method.now.lp.now basis.now }
    requires workspace { IsWorkspaceOf (rhs_problem method.now.lp.now method.now.shift.now)
        basis.now workspace.now }
    ensures reaches { IfOk result
        (IsReachFromAny method.now.lp.now method.now.shift.now basis.now max) }
    ensures overflow { IfErr result (λ e. (before : List Basics) (after : List Basics) → RunRefused
        method.now.lp.now method.now.shift.now basis.now before after e) }
{
    let value = workspace.point.as_slice();
    let slope = workspace.change.as_slice();
    match ends_by(method.lp, method.shift, value, slope, max) {
        Ok(ends) => Ok(high_end(&ends, max)),
        Err(evidence) => Err(evidence),
    }
}
