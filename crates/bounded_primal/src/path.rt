//! The path of the bounded simplex method.

ghost use Rattle.std.specs.Prelude.{◌≡◌, ◌<◌, None, List, length, IfOk, IfErr, IsErrOf};
ghost use Rattle.lp_definitions.specs.LinearProgram.{size, value_at, IsLinearProgram};
ghost use Rattle.lp_definitions.specs.declared.Status.{Status};
ghost use Rattle.simplex_definitions.specs.Path.{PathEnding};
ghost use Rattle.basis_values.specs.Calls.{IsAtBasis, StaysAt, MovesTo};
ghost use Rattle.basis_values.specs.Stops.{PointOverflow};
ghost use Rattle.basis_values.specs.Wants.{AreWants};
ghost use Rattle.bounded_primal.specs.Calls.{CallEnds, NeverReturned, WaypointsFollow};
ghost use Rattle.bounded_primal.specs.Complete.{EndsOverflowFree, IsEndOrMemory};
ghost use Rattle.bounded_primal.specs.Outcomes.{IsTrueOutcome};
ghost use Rattle.bounded_primal.specs.Stops.{PrimalStops};
ghost use Rattle.bounded_primal.specs.Standing.{StandsAt, Advances};
ghost use Rattle.bounded_primal.specs.Turns.{IsUncrossed, least_outside};
ghost use Rattle.bounded_primal.specs.Workspaces.{AreSized};
ghost use Rattle.termination_laws.specs.Laws.{lists_of};

use crate::kept::Kept;
use crate::moves::{Move, PrimalStop};
use crate::position::Position;
use crate::step::step_over;
use crate::turns::{Turn, next_turn};
use crate::workspace::Workspace;
use basis_values::{crossed, outside, renew_wants, wants_of};
use lp_model::{Basis, Lp, Outcome, Rates, Ratio, Stop, Wanted};
use std::alloc::Global;

/// The least-numbered basic outside its limits after a step. Where there was none before the step, there is none.
pub fn outside_after(lp: &Lp, basis: &Basis, point: &[Ratio], broken: Option<u32>) -> Option<u32>
    requires counted { length basis.now ≡ size lp.now.matrix }
    requires places { length point.now ≡ size lp.now.matrix }
    requires stays { broken ≡ None → least_outside lp.now basis.now (value_at point.now) ≡ None }
    ensures { result ≡ least_outside lp.now basis.now (value_at point.now) }
{
    if broken.is_none() {
        return None;
    }
    outside(lp, basis, point)
}

/// How a path stands at its basis: which values of the point are kept, the least-numbered basic outside its limits, which is `broken`,
/// how many steps are made, and how many more may be.
#[derive(Clone, Copy)]
pub struct Standing {
    pub kept: Kept,
    pub broken: Option<u32>,
    pub steps: u32,
    pub left: u32,
}

/// Makes the point of the basis at which a path begins, where so many steps are `left`.
pub fn begin<R: Rates>(
    lp: &Lp,
    basis: &Basis,
    rates: &mut R,
    workspace: &mut Workspace,
    left: u32,
) -> Result<Standing, Stop>
    requires rates { IsAtBasis (R.state rates.old) lp.now basis.now }
    requires sized { AreSized (size lp.now.matrix) workspace.old }
    ensures stands { IfOk result (StandsAt lp.now basis.now workspace.new) }
    ensures steps { IfOk result (λ at. at.steps ≡ 0) }
    ensures left { IfOk result (λ at. at.left ≡ left) }
    ensures rates { StaysAt (R.state rates.old) (R.state rates.new) lp.now basis.now }
    ensures overflow { PointOverflow result lp.now basis.now (R.state rates.old)
        (R.state rates.new) }
{
    workspace.fill_point(lp, basis, rates)?;
    Ok(Standing {
        kept: Kept::AllSoFar,
        broken: outside(lp, basis, &workspace.point),
        steps: 0,
        left,
    })
}

/// One turn: the path ends where it stands, and the outcome is answered; or the basis, its rates and its point go over to the next one,
/// and the steps are yet to be counted. `wanted` has the signs of the rates that let a nonbasic lower a quantity.
pub fn advance<R: Rates>(
    lp: &Lp,
    basis: &mut Basis,
    rates: &mut R,
    wanted: &mut [Wanted],
    workspace: &mut Workspace,
    standing: &mut Standing,
) -> Result<Option<Outcome>, PrimalStop>
    requires lawful { IsLinearProgram lp.now }
    requires uncrossed { IsUncrossed lp.now }
    requires rates { IsAtBasis (R.state rates.old) lp.now basis.old }
    requires wants { AreWants lp.now basis.old wanted.old }
    requires stands { StandsAt lp.now basis.old workspace.old standing.old }
    ensures turn { Advances result lp.now basis.old basis.new standing.old (R.state rates.old)
        (R.state rates.new) }
    ensures rates { IsAtBasis (R.state rates.new) lp.now basis.new }
    ensures waypoints { MovesTo (R.state rates.old) (R.state rates.new) lp.now basis.old basis.new }
    ensures wants { IfOk result (λ end. end ≡ None → AreWants lp.now basis.new wanted.new) }
    ensures stands { IfOk result
        (λ end. end ≡ None → StandsAt lp.now basis.new workspace.new standing.new) }
    ensures steps { standing.new.steps ≡ standing.old.steps }
    ensures left { standing.new.left ≡ standing.old.left }
{
    let point = workspace.point.as_mut_slice();
    let prices = workspace.prices.as_mut_slice();
    let row = workspace.row.as_mut_slice();
    let at = Position {
        alloc: workspace.alloc,
        lp,
        basis,
        point,
        kept: standing.kept,
        broken: standing.broken,
        steps: standing.steps,
        left: standing.left,
    };
    match next_turn(&at, rates, wanted, prices, row, &mut workspace.direction)? {
        Turn::Ends(outcome) => Ok(Some(outcome)),
        Turn::Moves { q, by } => {
            let by = &by;
            let step = Move {
                q,
                by,
                direction: &workspace.direction,
            };
            let kept = step_over(lp, basis, rates, point, &step, standing.kept)?;
            let broken = outside_after(lp, basis, point, standing.broken);
            renew_wants(lp, basis, wanted, by.p, q);
            standing.kept = kept;
            standing.broken = broken;
            Ok(None)
        }
    }
}

/// Goes from basis to basis until the path ends, for at most `limit` steps. `wanted` has the signs of the rates that let a nonbasic lower
/// a quantity.
fn walk<R: Rates>(
    lp: &Lp,
    basis: &mut Basis,
    rates: &mut R,
    wanted: &mut [Wanted],
    workspace: &mut Workspace,
    limit: u32,
) -> Result<Outcome, PrimalStop>
    requires lawful { IsLinearProgram lp.now }
    requires rates { IsAtBasis (R.state rates.old) lp.now basis.old }
    requires wants { AreWants lp.now basis.old wanted.old }
    requires sized { AreSized (size lp.now.matrix) workspace.old }
    requires uncrossed { IsUncrossed lp.now }
    ensures ends { IfOk result (CallEnds lp.now basis.old basis.new limit) }
    ensures stops { IfErr result (PrimalStops lp.now basis.old basis.new limit (R.state rates.old)
        (R.state rates.new)) }
    ensures rates { IsAtBasis (R.state rates.new) lp.now basis.new }
    ensures waypoints { WaypointsFollow lp.now basis.old basis.new (R.state rates.old)
        (R.state rates.new) }
{
    let mut standing = begin(lp, basis, rates, workspace, limit)?;
    loop {
        match advance(lp, basis, rates, wanted, workspace, &mut standing)? {
            Some(outcome) => return Ok(outcome),
            None => {
                standing.steps += 1;
                standing.left -= 1;
            }
        }
    }
}

/// Walks with vectors of its own. Where a variable is crossed, the path ends at once.
fn follow<R: Rates>(
    alloc: Global,
    lp: &Lp,
    basis: &mut Basis,
    rates: &mut R,
    limit: u32,
) -> Result<Outcome, PrimalStop>
    requires lawful { IsLinearProgram lp.now }
    requires rates { IsAtBasis (R.state rates.old) lp.now basis.old }
    ensures ends { IfOk result (CallEnds lp.now basis.old basis.new limit) }
    ensures stops { IfErr result (PrimalStops lp.now basis.old basis.new limit (R.state rates.old)
        (R.state rates.new)) }
    ensures rates { IsAtBasis (R.state rates.new) lp.now basis.new }
    ensures waypoints { WaypointsFollow lp.now basis.old basis.new (R.state rates.old)
        (R.state rates.new) }
{
    if let Some(k) = crossed(lp) {
        return Ok(Outcome::Crossed { k });
    }
    let mut workspace = Workspace::new(alloc, lp)?;
    let mut wanted = wants_of(alloc, lp, basis)?;
    walk(lp, basis, rates, &mut wanted, &mut workspace, limit)
}

/// Follows the path from the basis until it ends, for at most `limit` steps: the bounded simplex method with the least-index rule.
/// A crossed variable ends it; else the least-numbered basic outside its limits is brought back to the limit that it broke; else
/// the least-numbered nonbasic that improves the objective moves until something stops it. `Limit` comes exactly where the path has
/// not ended after so many steps. The basis and the rates are those that the path has reached, after a stop too.
pub fn primal<R: Rates>(
    alloc: Global,
    lp: &Lp,
    basis: &mut Basis,
    rates: &mut R,
    limit: u32,
) -> Result<Outcome, PrimalStop>
    requires { IsAtBasis (R.state rates.old) lp.now basis.old }
    ensures ends { IfOk result (CallEnds lp.now basis.old basis.new limit) }
    ensures stops { IfErr result (PrimalStops lp.now basis.old basis.new limit (R.state rates.old)
        (R.state rates.new)) }
    ensures rates { IsAtBasis (R.state rates.new) lp.now basis.new }
    ensures waypoints { WaypointsFollow lp.now basis.old basis.new (R.state rates.old)
        (R.state rates.new) }
    ensures truth { IfOk result (IsTrueOutcome lp.now) }
    // No basis comes twice.
    ensures apart { NeverReturned lp.now basis.old basis.new }
    // No path has as many steps as there are status lists, three for each variable.
    ensures limited { IsErrOf result PrimalStop.Limit → limit < lists_of lp.now }
    ensures complete { (bases : List (List Status)) (ending : PathEnding) →
        EndsOverflowFree lp.now basis.old limit (R.state rates.old).waypoints bases ending →
        IsEndOrMemory basis.old bases ending basis.new result }
{
    let _size = lp.number_of_variables();
    follow(alloc, lp, basis, rates, limit)
}
