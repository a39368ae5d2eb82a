//! The path of the bounded simplex method without a limit of steps.

ghost use Rattle.std.specs.Prelude.{◌≡◌, ◌≢◌, ◌<◌, List, IfOk, IfErr};
ghost use Rattle.lp_definitions.specs.LinearProgram.{size, IsLinearProgram};
ghost use Rattle.lp_definitions.specs.declared.Status.{Status};
ghost use Rattle.simplex_definitions.specs.Path.{PathEnding};
ghost use Rattle.termination_laws.specs.Laws.{lists_of};
ghost use Rattle.basis_values.specs.Calls.{IsAtBasis};
ghost use Rattle.basis_values.specs.Wants.{AreWants};
ghost use Rattle.bounded_primal.specs.Calls.{CallEnds, NeverReturned, WaypointsFollow};
ghost use Rattle.bounded_primal.specs.Complete.{EndsFreely, IsFreeEndOrMemory};
ghost use Rattle.bounded_primal.specs.Outcomes.{IsTrueOutcome};
ghost use Rattle.bounded_primal.specs.Stops.{primal_stop_of, FreeStops};
ghost use Rattle.bounded_primal.specs.Turns.{IsUncrossed};
ghost use Rattle.bounded_primal.specs.Workspaces.{AreSized};

use crate::moves::PrimalStop;
use crate::path::{advance, begin};
use crate::workspace::Workspace;
use basis_values::{crossed, wants_of};
use lp_model::{Basis, Lp, Outcome, Rates, Stop, Wanted};
use std::alloc::Global;
use std::marker::Brand;
use std::sync::ledger::{Blank, Ledger};

/// A stop that no limit makes.
fn unlimited(stop: PrimalStop) -> Stop
    requires { stop ≢ PrimalStop.Limit }
    ensures { primal_stop_of result ≡ stop }
{
    match stop {
        PrimalStop::Limit => unreachable!(),
        PrimalStop::Overflow(evidence) => Stop::Overflow(evidence),
        PrimalStop::NoMemory => Stop::NoMemory,
    }
}

/// Goes from basis to basis until the path ends, with one step left at each, so that no limit is ever reached. `wanted` has the signs of
/// the rates that let a nonbasic lower a quantity.
/// The ledger of `blank` counts the steps for the proof that this comes to an end, since no basis comes twice; it takes no bytes.
fn walk_free<R: Rates, L: Ledger>(
    lp: &Lp,
    basis: &mut Basis,
    rates: &mut R,
    wanted: &mut [Wanted],
    workspace: &mut Workspace,
    blank: Blank,
) -> Result<Outcome, Stop>
    requires name { blank.name ≡ L.name }
    requires parts { blank.parts ≡ L.parts }
    requires some { 0 < blank.parts }
    requires lawful { IsLinearProgram lp.now }
    requires rates { IsAtBasis (R.state rates.old) lp.now basis.old }
    requires wants { AreWants lp.now basis.old wanted.old }
    requires sized { AreSized (size lp.now.matrix) workspace.old }
    requires uncrossed { IsUncrossed lp.now }
    ensures ends { IfOk result (CallEnds lp.now basis.old basis.new (lists_of lp.now)) }
    ensures stops { IfErr result (FreeStops lp.now basis.old basis.new (R.state rates.old)
        (R.state rates.new)) }
    ensures rates { IsAtBasis (R.state rates.new) lp.now basis.new }
    ensures waypoints { WaypointsFollow lp.now basis.old basis.new (R.state rates.old)
        (R.state rates.new) }
{
    let (mut book, mut share) = blank.open::<L>();
    let mut standing = begin(lp, basis, rates, workspace, 1)?;
    loop {
        let ended = match advance(lp, basis, rates, wanted, workspace, &mut standing) {
            Ok(ended) => ended,
            Err(stop) => return Err(unlimited(stop)),
        };
        match ended {
            Some(outcome) => return Ok(outcome),
            None => {}
        }
        book.add(&mut share, 1);
        standing.steps = standing.steps.saturating_add(1);
    }
}

/// Walks with vectors of its own. Where a variable is crossed, the path ends at once.
fn follow_free<R: Rates>(
    alloc: Global,
    lp: &Lp,
    basis: &mut Basis,
    rates: &mut R,
) -> Result<Outcome, Stop>
    requires lawful { IsLinearProgram lp.now }
    requires rates { IsAtBasis (R.state rates.old) lp.now basis.old }
    ensures ends { IfOk result (CallEnds lp.now basis.old basis.new (lists_of lp.now)) }
    ensures stops { IfErr result (FreeStops lp.now basis.old basis.new (R.state rates.old)
        (R.state rates.new)) }
    ensures rates { IsAtBasis (R.state rates.new) lp.now basis.new }
    ensures waypoints { WaypointsFollow lp.now basis.old basis.new (R.state rates.old)
        (R.state rates.new) }
{
    if let Some(k) = crossed(lp) {
        return Ok(Outcome::Crossed { k });
    }
    let mut workspace = Workspace::new(alloc, lp)?;
    let mut wanted = wants_of(alloc, lp, basis)?;
    let blank = Blank::new(1);
    walk_free::<R, Brand>(lp, basis, rates, &mut wanted, &mut workspace, blank)
}

/// Follows the path from the basis until it ends, by the rules of `primal`, with no limit of steps: it ends, since no basis comes
/// twice, and so after fewer steps than there are status lists. The count of steps in the outcome stands still at 4,294,967,295.
/// The basis and the rates are those that the path has reached, after a stop too.
pub fn primal_free<R: Rates>(
    alloc: Global,
    lp: &Lp,
    basis: &mut Basis,
    rates: &mut R,
) -> Result<Outcome, Stop>
    requires { IsAtBasis (R.state rates.old) lp.now basis.old }
    ensures ends { IfOk result (CallEnds lp.now basis.old basis.new (lists_of lp.now)) }
    ensures stops { IfErr result (FreeStops lp.now basis.old basis.new (R.state rates.old)
        (R.state rates.new)) }
    ensures rates { IsAtBasis (R.state rates.new) lp.now basis.new }
    ensures waypoints { WaypointsFollow lp.now basis.old basis.new (R.state rates.old)
        (R.state rates.new) }
    ensures truth { IfOk result (IsTrueOutcome lp.now) }
    // No basis comes twice.
    ensures apart { NeverReturned lp.now basis.old basis.new }
    ensures complete { (bases : List (List Status)) (ending : PathEnding) →
        EndsFreely lp.now basis.old (R.state rates.old).waypoints bases ending →
        IsFreeEndOrMemory basis.old bases ending basis.new result }
{
    let _size = lp.number_of_variables();
    follow_free(alloc, lp, basis, rates)
}
