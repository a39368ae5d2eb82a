//! A face step: who brings the leaver back, and how far it moves.

ghost use Rattle.std.specs.Prelude.{◌≡◌, ◌≢◌, ℕ, not, length, IsSome, OnOk, IfOk, IfErr};
ghost use Rattle.exact_values.specs.Rational.{ℚ, zero_ℚ};
ghost use Rattle.lp_definitions.specs.LinearProgram.{size, value_at};
ghost use Rattle.lp_definitions.specs.Basis.{basics_of, IsBasic, IsNonbasic, IsDirectionOf};
ghost use Rattle.lp_model.specs.RatesCalls.{IsRowOf, IfOverflow};
ghost use Rattle.simplex_definitions.specs.Formulas.{limit_numbered, number_of_limit};
ghost use Rattle.basis_values.specs.Calls.{IsAtBasis, StaysAt};
ghost use Rattle.bounded_primal.specs.Moves.{return_by};
ghost use Rattle.bounded_primal.specs.Turns.{ReturnStops, ray_from};
ghost use Rattle.dual_step.specs.Cheapest.{cheapest_by};
ghost use Rattle.parametric_run.specs.Standing.{AreSized};
ghost use Rattle.para_rhs.specs.Limits.{is_upper};
ghost use Rattle.para_rhs.specs.Turns.{goes_to, EntryRefused, IsInfeasiblePast};

use crate::breaks::Leaver;
use crate::limits::is_lower;
use bounded_primal::{BlockingVariable, limit_broken, ray_of, returning};
use dual_step::cheapest;
use frac128::Frac;
use lp_model::{Basis, Lp, NoMemory, ParaEnd, Rates, Stop};
use parametric_run::Workspace;

/// The nonbasic that brings the leaver back at the least price, and of equals the least-numbered, if there is one. The workspace takes
/// the leaver's row.
pub fn entering<R: Rates>(
    lp: &Lp,
    basis: &Basis,
    rates: &mut R,
    workspace: &mut Workspace,
    leaver: &Leaver,
) -> Result<Option<u32>, Stop>
    requires rates { IsAtBasis (R.state rates.old) lp.now basis.now }
    requires sized { AreSized (size lp.now.matrix) workspace.old }
    requires basic { IsBasic lp.now.matrix (basics_of basis.now) leaver.now.r }
    ensures row { OnOk result (IsRowOf lp.now.matrix (basics_of basis.now) leaver.now.r
        (value_at workspace.new.row.items)) }
    ensures chosen { IfOk result (λ chosen. chosen ≡ cheapest_by lp.now basis.now
        (value_at workspace.new.prices.items) (value_at workspace.new.row.items)
        (not (is_upper leaver.now.side))) }
    ensures others { workspace.new ≡ record workspace.old { row = workspace.new.row } }
    ensures places { length workspace.new.row.items ≡ length workspace.old.row.items }
    ensures rates { StaysAt (R.state rates.old) (R.state rates.new) lp.now basis.now }
    ensures overflow { IfErr result (λ stop. IfOverflow stop (EntryRefused lp.now basis.now
        (value_at workspace.old.prices.items) leaver.now (R.state rates.old).waypoints
        (R.state rates.new).waypoints)) }
{
    workspace.read_row(lp, basis, rates, leaver.r)?;
    let below = is_lower(leaver.side);
    match cheapest(
        lp,
        basis,
        &workspace.prices,
        &workspace.row,
        leaver.r,
        below,
    ) {
        Ok(chosen) => Ok(chosen),
        Err(evidence) => Err(Stop::Overflow(evidence)),
    }
}

/// The move of `q` that brings the leaver back to its limit. The workspace takes the direction of `q`.
pub fn return_of<R: Rates>(
    lp: &Lp,
    basis: &Basis,
    rates: &mut R,
    workspace: &mut Workspace,
    q: u32,
    leaver: &Leaver,
) -> Result<BlockingVariable, Stop>
    requires rates { IsAtBasis (R.state rates.old) lp.now basis.now }
    requires sized { AreSized (size lp.now.matrix) workspace.old }
    requires nonbasic { IsNonbasic lp.now.matrix (basics_of basis.now) q }
    requires basic { IsBasic lp.now.matrix (basics_of basis.now) leaver.now.r }
    requires limit { IsSome (limit_numbered lp.now leaver.now.r
        (number_of_limit (goes_to leaver.now))) }
    requires pivot { (d : ℕ → ℚ) → IsDirectionOf lp.now.matrix (basics_of basis.now) q d →
        d leaver.now.r ≢ zero_ℚ }
    ensures direction { OnOk result (IsDirectionOf lp.now.matrix (basics_of basis.now) q
        (value_at workspace.new.direction)) }
    ensures blocking_variable { IfOk result
        (λ by. by ≡ return_by lp.now (value_at workspace.new.point.items)
        (value_at workspace.new.direction) leaver.now.r (goes_to leaver.now)) }
    ensures others { workspace.new ≡ record workspace.old { direction = workspace.new.direction } }
    ensures places { OnOk result (length workspace.new.direction ≡ size lp.now.matrix) }
    ensures rates { StaysAt (R.state rates.old) (R.state rates.new) lp.now basis.now }
    ensures overflow { IfErr result (λ stop. IfOverflow stop (ReturnStops lp.now basis.now
        (value_at workspace.old.point.items) q leaver.now.r (goes_to leaver.now)
        (R.state rates.old).waypoints (R.state rates.new).waypoints)) }
{
    workspace.read_direction(lp, basis, rates, q)?;
    let direction = workspace.direction.values();
    let to = limit_broken(is_lower(leaver.side));
    match returning(lp, &workspace.point, direction, q, leaver.r, to) {
        Ok(by) => Ok(by),
        Err(evidence) => Err(Stop::Overflow(evidence)),
    }
}

/// The end past `theta`: the multipliers that show that the leaver can't come back.
pub fn infeasible_end(
    lp: &Lp,
    workspace: &Workspace,
    leaver: &Leaver,
    theta: Frac,
) -> Result<ParaEnd, NoMemory>
    requires { length workspace.now.row.items ≡ size lp.now.matrix }
    ensures { IfOk result
        (IsInfeasiblePast lp.now theta (ray_from (value_at workspace.now.row.items)
        leaver.now.r (not (is_upper leaver.now.side)))) }
{
    let below = is_lower(leaver.side);
    let ray = ray_of(workspace.alloc, lp, &workspace.row, leaver.r, below)?;
    Ok(ParaEnd::Infeasible { past: theta, ray })
}
