//! The path of the dual simplex method.

ghost use Rattle.std.specs.Prelude.{◌≡◌, ◌<◌, None, List, length, OnOk, IfOk, IfErr, IsErrOf, IsTrue};
ghost use Rattle.lp_definitions.specs.LinearProgram.{size, value_at, IsLinearProgram};
ghost use Rattle.lp_definitions.specs.Basis.{ArePricesOf};
ghost use Rattle.lp_definitions.specs.declared.Status.{Status};
ghost use Rattle.simplex_definitions.specs.Path.{PathEnding};
ghost use Rattle.simplex_definitions.specs.DualPath.{dual_turn, HasRightPrices};
ghost use Rattle.simplex_definitions.specs.Statements.{Dual};
ghost use Rattle.basis_values.specs.Calls.{IsAtBasis, StaysAt};
ghost use Rattle.basis_values.specs.Stops.{PointOverflow};
ghost use Rattle.bounded_primal.specs.Calls.{RuleCallEnds, RuleNeverReturned};
ghost use Rattle.bounded_primal.specs.Complete.{RuleEndsOverflowFree, IsEndOr};
ghost use Rattle.bounded_primal.specs.Outcomes.{IsTrueOutcome};
ghost use Rattle.bounded_primal.specs.Turns.{IsUncrossed};
ghost use Rattle.bounded_primal.specs.Workspaces.{AreSized};
ghost use Rattle.termination_laws.specs.Laws.{lists_of};
ghost use Rattle.bounded_dual.specs.Stops.{DualEnds, DualStops, IsNotUnbounded, DualWaypointsFollow};

use crate::moves::DualStop;
use crate::turns::next_turn;
use basis_values::{crossed, fill_prices, outside, wrong_price};
use bounded_primal::{Kept, Move, Position, PrimalStop, Turn, Workspace, step_over};
use dual_step::prices_over;
use frac128::Frac;
use lp_model::{Basis, Lp, Outcome, Rates, Stop};
use std::alloc::Global;

/// The prices of the basis, which are at hand where they were `carried` there, and are made anew where an operation was refused on the
/// way. `workspace` has a place for each variable.
fn kept_prices<R: Rates>(
    lp: &Lp,
    basis: &Basis,
    rates: &mut R,
    workspace: &mut [Frac],
    prices: &mut [Frac],
    carried: bool,
) -> Result<(), Stop>
    requires lawful { IsLinearProgram lp.now }
    requires rates { IsAtBasis (R.state rates.old) lp.now basis.now }
    requires workspace { length workspace.old ≡ size lp.now.matrix }
    requires places { length prices.old ≡ size lp.now.matrix }
    requires carried { IsTrue carried → ArePricesOf lp.now basis.now (value_at prices.old) }
    ensures prices { OnOk result (ArePricesOf lp.now basis.now (value_at prices.new)) }
    ensures rates { StaysAt (R.state rates.old) (R.state rates.new) lp.now basis.now }
    ensures overflow { PointOverflow result lp.now basis.now (R.state rates.old)
        (R.state rates.new) }
{
    if carried {
        return Ok(());
    }
    fill_prices(lp, basis, rates, workspace, prices)
}

/// Makes the basis's point, and goes from basis to basis with it, or with the values that steps need, where another is refused.
/// The prices of the workspace are the basis's, and are kept over each step.
fn walk<R: Rates>(
    lp: &Lp,
    basis: &mut Basis,
    rates: &mut R,
    workspace: &mut Workspace,
    limit: u32,
) -> Result<Outcome, DualStop>
    requires lawful { IsLinearProgram lp.now }
    requires no_change { lp.now.change ≡ None }
    requires rates { IsAtBasis (R.state rates.old) lp.now basis.old }
    requires sized { AreSized (size lp.now.matrix) workspace.old }
    requires prices { ArePricesOf lp.now basis.old (value_at workspace.old.prices.items) }
    requires right { HasRightPrices lp.now basis.old }
    requires uncrossed { IsUncrossed lp.now }
    ensures ends { IfOk result (RuleCallEnds dual_turn lp.now basis.old basis.new limit) }
    ensures stops { IfErr result (DualStops lp.now basis.old basis.new limit (R.state rates.old)
        (R.state rates.new)) }
    ensures rates { IsAtBasis (R.state rates.new) lp.now basis.new }
    ensures waypoints { DualWaypointsFollow lp.now basis.old basis.new (R.state rates.old)
        (R.state rates.new) }
{
    let alloc = workspace.alloc;
    workspace.fill_point(lp, basis, rates)?;
    let point = workspace.point.as_mut_slice();
    let prices = workspace.prices.as_mut_slice();
    let row = workspace.row.as_mut_slice();
    let direction = &mut workspace.direction;
    let mut broken = outside(lp, basis, point);
    let mut kept = Kept::AllSoFar;
    let mut steps = 0;
    loop {
        let at = Position {
            alloc,
            lp,
            basis,
            point,
            kept,
            broken,
            steps,
            left: limit - steps,
        };
        match next_turn(&at, rates, prices, row, direction)? {
            Turn::Ends(outcome) => return Ok(outcome),
            Turn::Moves { q, by } => {
                let carried = prices_over(prices, row, by.p, q);
                let by = &by;
                let step = Move { q, by, direction };
                kept = step_over(lp, basis, rates, point, &step, kept)?;
                kept_prices(lp, basis, rates, row, prices, carried)?;
            }
        }
        broken = outside(lp, basis, point);
        steps += 1;
    }
}

/// Walks with vectors of its own, from right prices. Where a variable is crossed, the path ends at once.
fn follow<R: Rates>(
    alloc: Global,
    lp: &Lp,
    basis: &mut Basis,
    rates: &mut R,
    limit: u32,
) -> Result<Outcome, DualStop>
    requires lawful { IsLinearProgram lp.now }
    requires rates { IsAtBasis (R.state rates.old) lp.now basis.old }
    requires no_change { lp.now.change ≡ None }
    ensures ends { IfOk result (DualEnds lp.now basis.old basis.new limit) }
    ensures stops { IfErr result (DualStops lp.now basis.old basis.new limit (R.state rates.old)
        (R.state rates.new)) }
    ensures rates { IsAtBasis (R.state rates.new) lp.now basis.new }
    ensures waypoints { DualWaypointsFollow lp.now basis.old basis.new (R.state rates.old)
        (R.state rates.new) }
{
    let mut workspace = Workspace::new(alloc, lp)?;
    workspace.fill_prices(lp, basis, rates)?;
    if let Some(j) = wrong_price(lp, basis, &workspace.prices) {
        return Err(DualStop::NotDualFeasible(j));
    }
    if let Some(k) = crossed(lp) {
        return Ok(Outcome::Crossed { k });
    }
    walk(lp, basis, rates, &mut workspace, limit)
}

/// Follows the dual path from a basis whose prices are right, until it ends, for at most `limit` steps: the least-numbered basic outside
/// its limits is brought back to the limit that it broke, by the least-numbered of the nonbasics that bring it back at the least loss.
/// `NotDualFeasible` names the least-numbered nonbasic whose price is wrong, and comes before any step; prices are tested before crossed
/// variables. `Limit` comes exactly where the path has not ended after so many steps. The basis and the rates are those that the path
/// has reached, after a stop too.
pub fn dual<R: Rates>(
    alloc: Global,
    lp: &Lp,
    basis: &mut Basis,
    rates: &mut R,
    limit: u32,
) -> Result<Outcome, DualStop>
    requires rates { IsAtBasis (R.state rates.old) lp.now basis.old }
    requires no_change { lp.now.change ≡ None }
    ensures ends { IfOk result (DualEnds lp.now basis.old basis.new limit) }
    ensures stops { IfErr result (DualStops lp.now basis.old basis.new limit (R.state rates.old)
        (R.state rates.new)) }
    ensures rates { IsAtBasis (R.state rates.new) lp.now basis.new }
    ensures waypoints { DualWaypointsFollow lp.now basis.old basis.new (R.state rates.old)
        (R.state rates.new) }
    ensures truth { IfOk result (IsTrueOutcome lp.now) }
    ensures bounded { IfOk result IsNotUnbounded }
    // From right prices no basis comes twice, and so no path has as many steps as there are status lists, three for each variable.
    ensures apart { HasRightPrices lp.now basis.old →
        RuleNeverReturned dual_turn lp.now basis.old basis.new }
    ensures limited { IsErrOf result (DualStop.Path PrimalStop.Limit) → limit < lists_of lp.now }
    ensures complete { (bases : List (List Status)) (ending : PathEnding) →
        HasRightPrices lp.now basis.old →
        RuleEndsOverflowFree dual_turn (Dual lp.now) lp.now basis.old limit
        (R.state rates.old).waypoints bases ending → IsEndOr (DualStop.Path PrimalStop.NoMemory) basis.old bases
        ending basis.new result }
{
    let _size = lp.number_of_variables();
    follow(alloc, lp, basis, rates, limit)
}
