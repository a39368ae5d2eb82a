//! The linear program at a value of the parameter.

ghost use Rattle.std.specs.Prelude.{◌≡◌, [], not, length, IfOk, IfErr};
ghost use Rattle.exact_values.specs.Rational.{zero_ℚ, ◌+ℚ◌, ◌*ℚ◌};
ghost use Rattle.simplex_definitions.specs.Evidence.{ShiftHolds};
ghost use Rattle.simplex_definitions.specs.Statements.{Pararhs};
ghost use Rattle.lp_definitions.specs.LinearProgram.{size, value_at, IsVariable, IsLinearProgram};
ghost use Rattle.lp_model.specs.RatesCalls.{IfOverflow};
ghost use Rattle.simplex_definitions.specs.RhsRun.{shift_of, shifted, rhs_family};
ghost use Rattle.para_rhs.specs.Limits.{limit_on, number_of, is_upper, moved_by, shift_formula, MoveRefused, LimitRefused, SomeLimitRefused};

use basis_values::{Formula, plus_product};
use frac128::Frac;
use lp_model::{Evidence, Lp, NoMemory, Stop};
use std::alloc::Global;

/// One of the two limits of a variable.
#[derive(Clone, Copy, Debug, PartialEq, Eq)]
pub enum Side {
    Lower,
    Upper,
}

/// The limit of `k` on that side.
pub fn limit_on(lp: &Lp, side: Side, k: u32) -> Option<Frac>
    requires { IsVariable lp.now.matrix k }
    ensures { result ≡ limit_on lp.now side k }
{
    match side {
        Side::Lower => lp.lower_limit(k),
        Side::Upper => lp.upper_limit(k),
    }
}

/// The number of the limit on that side.
pub fn number_of(side: Side) -> u32
    ensures { result ≡ number_of side }
{
    match side {
        Side::Lower => 1,
        Side::Upper => 2,
    }
}

/// Whether it is the upper limit.
pub fn is_upper(side: Side) -> bool
    ensures { result ≡ is_upper side }
{
    match side {
        Side::Lower => false,
        Side::Upper => true,
    }
}

/// Whether it is the lower limit.
pub fn is_lower(side: Side) -> bool
    ensures { result ≡ not (is_upper side) }
{
    match side {
        Side::Lower => true,
        Side::Upper => false,
    }
}

/// The shift of `k`: that of its row, and 0 for a column.
pub fn shift_of(lp: &Lp, shift: &[Frac], k: u32) -> Frac
    requires variable { IsVariable lp.now.matrix k }
    requires shifts { length shift.now ≡ lp.now.rows }
    ensures { result ≡ shift_of lp.now.matrix shift.now k }
{
    if k <= lp.rows {
        shift[k as usize - 1]
    } else {
        Frac::whole(0)
    }
}

/// Formula 13 of the row `i`.
fn formula(i: u32, term: u32, theta: Frac) -> Formula
    ensures { result ≡ shift_formula i term theta }
{
    Formula {
        number: 13,
        p: 0,
        q: 0,
        i,
        j: 0,
        term,
        theta,
    }
}

/// The limit with theta times its shift, by the plain operations.
fn plainly_moved(limit: Frac, theta: Frac, by: Frac, i: u32, which: u32) -> Result<Frac, Evidence>
    ensures value { IfOk result (λ now. now ≡ limit +ℚ theta *ℚ by) }
    ensures refused { IfErr result (MoveRefused theta by limit i which) }
{
    let product = formula(i, 0, theta).product(theta, by)?;
    formula(i, which, theta).sum(limit, product)
}

/// The same, also where only the plain operations are refused.
fn moved(limit: Frac, theta: Frac, by: Frac, i: u32, which: u32) -> Result<Frac, Evidence>
    ensures value { IfOk result (λ now. now ≡ limit +ℚ theta *ℚ by) }
    ensures refused { IfErr result (MoveRefused theta by limit i which) }
{
    match plainly_moved(limit, theta, by, i, which) {
        Ok(now) => Ok(now),
        Err(evidence) => match plus_product(limit, theta, by) {
            Some(now) => Ok(now),
            None => Err(evidence),
        },
    }
}

/// The limit of `i` with theta times its shift, if it is there. Where the shift is 0 it is as it was.
fn limit_moved(
    limit: Option<Frac>,
    theta: Frac,
    by: Frac,
    i: u32,
    which: u32,
) -> Result<Option<Frac>, Evidence>
    ensures value { IfOk result (λ now. now ≡ moved_by theta by limit) }
    ensures refused { IfErr result (LimitRefused theta by limit i which) }
{
    let Some(number) = limit else {
        return Ok(None);
    };
    if by.is_zero() {
        return Ok(Some(number));
    }
    match moved(number, theta, by, i, which) {
        Ok(now) => Ok(Some(now)),
        Err(evidence) => Err(evidence),
    }
}

/// The limit of `k` at theta.
fn limit_at(lp: &Lp, shift: &[Frac], theta: Frac, side: Side, k: u32) -> Result<Option<Frac>, Stop>
    requires variable { IsVariable lp.now.matrix k }
    requires shifts { length shift.now ≡ lp.now.rows }
    ensures value { IfOk result (λ now. now ≡ moved_by theta (shift_of lp.now.matrix shift.now k)
        (limit_on lp.now side k)) }
    ensures overflow { IfErr result (λ stop. IfOverflow stop
        (SomeLimitRefused lp.now shift.now theta side)) }
{
    let by = shift_of(lp, shift, k);
    match limit_moved(limit_on(lp, side, k), theta, by, k, number_of(side)) {
        Ok(now) => Ok(now),
        Err(evidence) => Err(Stop::Overflow(evidence)),
    }
}

/// The limits of all variables on one side, each with theta times its shift.
fn limits_at(
    alloc: Global,
    lp: &Lp,
    shift: &[Frac],
    theta: Frac,
    side: Side,
) -> Result<Vec<Option<Frac>>, Stop>
    requires { length shift.now ≡ lp.now.rows }
    ensures lawful { IsLinearProgram lp.now }
    ensures limits { IfOk result (λ limits. limits.items ≡ shifted lp.now.matrix shift.now theta
        (limit_on lp.now side)) }
    ensures overflow { IfErr result (λ stop. IfOverflow stop
        (ShiftHolds (Pararhs lp.now shift.now theta) [])) }
{
    let mut limits = Vec::new(alloc);
    for k in 0..lp.number_of_variables() {
        let now = limit_at(lp, shift, theta, side, k + 1)?;
        limits.push(now).map_err(|_| NoMemory)?;
    }
    Ok(limits)
}

/// The linear program at theta: each limit of a row has theta times the row's shift added to it. An overflow comes only with evidence
/// of it for a run that begins there.
pub fn program_at(alloc: Global, lp: &Lp, shift: &[Frac], theta: Frac) -> Result<Lp, Stop>
    requires { length shift.now ≡ lp.now.rows }
    ensures program { IfOk result (λ at. at ≡ rhs_family lp.now shift.now theta) }
    ensures overflow { IfErr result (λ stop. IfOverflow stop
        (ShiftHolds (Pararhs lp.now shift.now theta) [])) }
{
    let lower = limits_at(alloc, lp, shift, theta, Side::Lower)?;
    let upper = limits_at(alloc, lp, shift, theta, Side::Upper)?;
    let program = lp.with_limits(alloc, lower, upper)?;
    Ok(program)
}
