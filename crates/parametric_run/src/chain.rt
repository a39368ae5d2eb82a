//! The chain of intervals.

ghost use Rattle.std.specs.Prelude.{◌≡◌, ◌≤◌, ◌∷◌, ◌++◌, [], length, OnOk, IfOk, IfErr};
ghost use Rattle.exact_values.specs.Rational.{◌≤ℚ◌};
ghost use Rattle.exact_values.specs.Tests.{eq_ℚ};
ghost use Rattle.lp_definitions.specs.LinearProgram.{size, value_at};
ghost use Rattle.lp_definitions.specs.Basis.{IsOptimalBasis};
ghost use Rattle.lp_model.specs.RatesCalls.{IfOverflow};
ghost use Rattle.basis_values.specs.Calls.{IsAtBasis, StaysAt};
ghost use Rattle.parametric_run.specs.Chains.{ChainEnds, ChainStops, ChainFollows};
ghost use Rattle.parametric_run.specs.Programs.{IsParametric};
ghost use Rattle.parametric_run.specs.Standing.{IsWorkspaceOf, IsPointAtSome, RefusedAt};

use crate::faces::faces;
use crate::method::{AfterFaces, Opened, Parametric, Span};
use crate::workspace::Workspace;
use bounded_primal::PrimalStop;
use frac128::Frac;
use lp_model::{Basis, NoMemory, ParaEnd, ParaPart, ParaParts, ParaRun, Point, Rates, Stop};
use std::alloc::Global;

/// Whether the interval that ends at `to` goes to the last value.
fn is_last(to: Frac, max: Frac) -> bool
    ensures { result ≡ eq_ℚ to max }
{
    to.compare(max).is_eq()
}

/// Adds an interval.
fn keep(parts: &mut Vec<ParaPart>, part: ParaPart) -> Result<(), NoMemory>
    ensures { OnOk result (parts.new.items ≡ parts.old.items ++ part ∷ []) }
{
    parts.push(part).map_err(|_| NoMemory)
}

/// The run with these intervals, of which the last goes to the last value.
fn whole_run(parts: Vec<ParaPart>) -> ParaRun
    ensures { result ≡ record { parts = parts.items; end = ParaEnd.AtMax } }
{
    ParaRun {
        parts: ParaParts::new(parts),
        end: ParaEnd::AtMax,
    }
}

/// The run with these intervals, which ends at a breakpoint.
fn closed_run(parts: Vec<ParaPart>, end: ParaEnd) -> ParaRun
    ensures { result ≡ record { parts = parts.items; end = end } }
{
    ParaRun {
        parts: ParaParts::new(parts),
        end,
    }
}

/// The vectors of the basis, whose point at some value is `there`.
fn begin<M: Parametric, R: Rates>(
    alloc: Global,
    method: &M,
    basis: &Basis,
    rates: &mut R,
    there: &Point,
) -> Result<Workspace, Stop>
    requires fits { M.fits method.now }
    requires rates { IsAtBasis (R.state rates.old) (M.problem method.now).program basis.now }
    requires there { IsPointAtSome (M.problem method.now) basis.now (value_at there.now) }
    requires places { length there.now ≡ size (M.problem method.now).program.matrix }
    ensures workspace { IfOk result (IsWorkspaceOf (M.problem method.now) basis.now) }
    ensures rates { StaysAt (R.state rates.old) (R.state rates.new) (M.problem method.now).program
        basis.now }
    ensures overflow { IfErr result (λ stop. IfOverflow stop (RefusedAt (M.problem method.now)
        basis.now (R.state rates.old).waypoints (R.state rates.new).waypoints)) }
{
    let point = method.point(alloc, basis, rates, there)?;
    let mut workspace = Workspace::with_point(alloc, point)?;
    method.refresh(basis, rates, &mut workspace)?;
    Ok(workspace)
}

/// The chain of intervals from the basis, which is optimal at the first value.
pub fn chain<M: Parametric, R: Rates>(
    alloc: Global,
    method: &M,
    span: &Span,
    basis: &mut Basis,
    rates: &mut R,
    opened: &Opened,
) -> Result<ParaRun, PrimalStop>
    requires parametric { IsParametric (M.problem method.now) }
    requires fits { M.fits method.now }
    requires rates { IsAtBasis (R.state rates.old) (M.problem method.now).program basis.old }
    requires forward { span.now.from ≤ℚ span.now.to }
    requires point { IsPointAtSome (M.problem method.now) basis.old (value_at opened.now.point) }
    requires places { length opened.now.point ≡ size (M.problem method.now).program.matrix }
    requires optimal { IsOptimalBasis ((M.problem method.now).family span.now.from) basis.old }
    ensures ends { IfOk result (ChainEnds (M.problem method.now) span.now basis.old basis.new
        opened.now.left (R.state rates.old).waypoints (R.state rates.new).waypoints) }
    ensures stops { IfErr result (ChainStops (M.problem method.now) span.now basis.old basis.new
        opened.now.left (R.state rates.old).waypoints (R.state rates.new).waypoints) }
    ensures rates { IsAtBasis (R.state rates.new) (M.problem method.now).program basis.new }
    ensures waypoints { ChainFollows (M.problem method.now) span.now basis.old basis.new
        opened.now.left (R.state rates.old).waypoints (R.state rates.new).waypoints }
{
    let mut workspace = begin(alloc, method, basis, rates, &opened.point)?;
    let mut parts = Vec::new(alloc);
    let mut theta = span.from;
    let mut left = opened.left;
    'parts: loop {
        let interval = method.interval(basis, &workspace, theta, span.to)?;
        let to = interval.to;
        keep(&mut parts, interval)?;
        if is_last(to, span.to) {
            return Ok(whole_run(parts));
        }
        match faces(method, basis, rates, &mut workspace, to, left)? {
            AfterFaces::Done { left: after } => left = after,
            AfterFaces::Ends(end) => return Ok(closed_run(parts, end)),
        }
        theta = to;
    }
}
