//! The face steps at a breakpoint, until none is left or the run ends.

ghost use Rattle.std.specs.Prelude.{◌≡◌, OnOk, OnErr, IfOk, IfErr};
ghost use Rattle.lp_definitions.specs.LinearProgram.{size, value_at};
ghost use Rattle.lp_definitions.specs.Basis.{IsOptimalBasis, IsPointOf};
ghost use Rattle.basis_values.specs.Calls.{IsAtBasis, MovesTo};
ghost use Rattle.simplex_definitions.specs.Path.{after};
ghost use Rattle.bounded_primal.specs.Moves.{StepOverflow, move_by};
ghost use Rattle.parametric_run.specs.Faces.{FacesFound, FacesFollow};
ghost use Rattle.parametric_run.specs.Standing.{AreSized, IsReady, IsWorkspaceOf};

use crate::method::{AfterFaces, FaceStep, Parametric};
use crate::workspace::{StoppedMove, Workspace, step_along};
use bounded_primal::{BlockingVariable, PrimalStop};
use frac128::Frac;
use lp_model::{Basis, Rates, Stop};

/// Makes the step `by` of `q`, whose direction the workspace has: the basis, the rates and the point go over to the next basis. After a
/// stop the basis is as before.
fn take<M: Parametric, R: Rates>(
    method: &M,
    basis: &mut Basis,
    rates: &mut R,
    workspace: &mut Workspace,
    q: u32,
    by: &BlockingVariable,
) -> Result<(), Stop>
    requires rates { IsAtBasis (R.state rates.old) (M.problem method.now).program basis.old }
    requires sized { AreSized (size (M.problem method.now).program.matrix) workspace.old }
    requires point { IsPointOf (M.problem method.now).program basis.old
        (value_at workspace.old.point.items) }
    requires ready { IsReady (M.problem method.now).program basis.old workspace.old q by.now }
    ensures basis { OnOk result (basis.new ≡ after basis.old (move_by q by.now)) }
    ensures sized { AreSized (size (M.problem method.now).program.matrix) workspace.new }
    ensures point { OnOk result (IsPointOf (M.problem method.now).program basis.new
        (value_at workspace.new.point.items)) }
    ensures unchanged { OnErr result (basis.new ≡ basis.old) }
    ensures rates { IsAtBasis (R.state rates.new) (M.problem method.now).program basis.new }
    ensures waypoints { MovesTo (R.state rates.old) (R.state rates.new)
        (M.problem method.now).program basis.old basis.new }
    ensures overflow { StepOverflow result (M.problem method.now).program basis.old q by.now
        (R.state rates.old) (R.state rates.new) }
{
    let Workspace {
        point,
        direction,
        ..
    } = workspace;
    step_along(
        method.program(),
        basis,
        rates,
        point,
        direction,
        &StoppedMove { q, by },
    )
}

/// Makes the face steps at a breakpoint until none is left or the run ends, with so many steps left to the run. The basis, the rates and
/// the workspace are those that it has reached; after a stop the basis and the rates are.
pub fn faces<M: Parametric, R: Rates>(
    method: &M,
    basis: &mut Basis,
    rates: &mut R,
    workspace: &mut Workspace,
    theta: Frac,
    begun: u32,
) -> Result<AfterFaces, PrimalStop>
    requires fits { M.fits method.now }
    requires rates { IsAtBasis (R.state rates.old) (M.problem method.now).program basis.old }
    requires workspace { IsWorkspaceOf (M.problem method.now) basis.old workspace.old }
    requires optimal { IsOptimalBasis ((M.problem method.now).family theta) basis.old }
    ensures found { FacesFound (M.problem method.now) result theta basis.old basis.new begun
        workspace.new (R.state rates.old) (R.state rates.new) }
    ensures rates { IsAtBasis (R.state rates.new) (M.problem method.now).program basis.new }
    ensures waypoints { FacesFollow (M.problem method.now) theta basis.old basis.new begun
        (R.state rates.old).waypoints (R.state rates.new).waypoints }
{
    let mut left = begun;
    'turns: loop {
        match method.face_turn(basis, rates, workspace, theta, left)? {
            FaceStep::Done => return Ok(AfterFaces::Done { left }),
            FaceStep::Ends(end) => return Ok(AfterFaces::Ends(end)),
            FaceStep::Moves { q, by } => take(method, basis, rates, workspace, q, &by)?,
        }
        left -= 1;
        method.refresh(basis, rates, workspace)?;
    }
}
