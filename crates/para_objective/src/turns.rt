//! A face step: which way the entering variable goes, and what stops it.

ghost use Rattle.std.specs.Prelude.{◌≡◌, length, IsTrue, OnOk, IfOk, IfErr};
ghost use Rattle.lp_definitions.specs.LinearProgram.{size, value_at, IsVariable};
ghost use Rattle.lp_definitions.specs.Solutions.{IsFeasible};
ghost use Rattle.lp_definitions.specs.Basis.{basics_of, IsNonbasic, IsDirectionOf, IsPointOf};
ghost use Rattle.lp_model.specs.RatesCalls.{IfOverflow};
ghost use Rattle.basis_values.specs.Calls.{IsAtBasis, StaysAt};
ghost use Rattle.basis_values.specs.Motions.{may_move};
ghost use Rattle.bounded_primal.specs.Moves.{blocking_variable_of as blocking_variable_by};
ghost use Rattle.bounded_primal.specs.Turns.{RunStops};
ghost use Rattle.parametric_run.specs.Standing.{AreSized};
ghost use Rattle.para_objective.specs.Faces.{face_up, IsUnboundedPast};

use crate::choices::worth;
use bounded_primal::{BlockingVariable, blocking_variable, signed_direction};
use frac128::Frac;
use lp_model::{Basis, Lp, NoMemory, ParaEnd, Rates, Stop};
use parametric_run::{Workspace, reduced_point};

/// Whether a variable with this rate of the change row rises to better it.
fn rises_by(lp: &Lp, change: &[Frac], q: u32) -> bool
    requires variable { IsVariable lp.now.matrix q }
    requires places { length change.now ≡ size lp.now.matrix }
    ensures { result ≡ face_up lp.now (value_at change.now) q }
{
    worth(lp.sense, change[q as usize - 1]).is_less(Frac::whole(0))
}

/// Whether `q` rises to improve the change row.
pub fn rises(lp: &Lp, workspace: &Workspace, q: u32) -> bool
    requires variable { IsVariable lp.now.matrix q }
    requires places { length workspace.now.change.items ≡ size lp.now.matrix }
    ensures { result ≡ face_up lp.now (value_at workspace.now.change.items) q }
{
    rises_by(lp, &workspace.change, q)
}

/// What stops `q`, which moves up or down from the basis's point. The workspace takes the direction of `q`.
pub fn blocking_variable_of<R: Rates>(
    lp: &Lp,
    basis: &Basis,
    rates: &mut R,
    workspace: &mut Workspace,
    q: u32,
    up: bool,
) -> Result<Option<BlockingVariable>, Stop>
    requires rates { IsAtBasis (R.state rates.old) lp.now basis.now }
    requires sized { AreSized (size lp.now.matrix) workspace.old }
    requires point { IsPointOf lp.now basis.now (value_at workspace.old.point.items) }
    requires feasible { IsFeasible lp.now (value_at workspace.old.point.items) }
    requires nonbasic { IsNonbasic lp.now.matrix (basics_of basis.now) q }
    requires may { IsTrue (may_move lp.now basis.now up q) }
    ensures direction { OnOk result (IsDirectionOf lp.now.matrix (basics_of basis.now) q
        (value_at workspace.new.direction)) }
    ensures blocking_variable { IfOk result
        (λ found. found ≡ blocking_variable_by lp.now
        (value_at workspace.new.point.items) (value_at workspace.new.direction) up) }
    ensures others { workspace.new ≡ record workspace.old { direction = workspace.new.direction } }
    ensures places { OnOk result (length workspace.new.direction ≡ size lp.now.matrix) }
    ensures rates { StaysAt (R.state rates.old) (R.state rates.new) lp.now basis.now }
    ensures overflow { IfErr result (λ stop. IfOverflow stop (RunStops lp.now basis.now
        (value_at workspace.old.point.items) q up (R.state rates.old).waypoints
        (R.state rates.new).waypoints)) }
{
    workspace.read_direction(lp, basis, rates, q)?;
    match blocking_variable(lp, basis, &workspace.point, &workspace.direction, q, up) {
        Ok(found) => Ok(found),
        Err(evidence) => Err(Stop::Overflow(evidence)),
    }
}

/// The end without a bound past `theta`.
pub fn unbounded_end(
    lp: &Lp,
    workspace: &Workspace,
    up: bool,
    theta: Frac,
) -> Result<ParaEnd, NoMemory>
    requires { length workspace.now.direction ≡ size lp.now.matrix }
    ensures { IfOk result (IsUnboundedPast lp.now theta workspace.now.point.items
        (value_at workspace.now.direction) up) }
{
    let alloc = workspace.alloc;
    let point = reduced_point(alloc, &workspace.point)?;
    let direction = signed_direction(alloc, lp, workspace.direction.values(), up)?;
    Ok(ParaEnd::Unbounded {
        past: theta,
        point,
        direction,
    })
}
