// Where an operation is refused.
ghost use Rattle.std.specs.Prelude.{◌≡◌, ◌≤◌, length, IfOk};
ghost use Rattle.lp_definitions.specs.Waypoints.{waypoint};
ghost use Rattle.basis_values.specs.Calls.{IsAtBasis};
ghost use Rattle.run_machine.specs.Ends.{place_view};
ghost use Rattle.setup_verbs.specs.Overflows.{IsOverflowAt};

use lp_definitions::Evidence;
use lp_model::{Basis, Lp, NoMemory, Rates};
use run_machine::{Finding, Halt, Place};
use std::alloc::Global;

/// The place of an evidence: a basis, and the set that has this number among the waypoints of rates of the same matrix.
pub fn place_at<R: Rates>(
    alloc: Global,
    lp: &Lp,
    basis: &Basis,
    rates: &R,
    way: u32,
) -> Result<Place, NoMemory>
    requires matrix { (R.state rates.now).matrix ≡ lp.now.matrix }
    requires way { way ≤ length (R.state rates.now).waypoints }
    ensures { IfOk result (λ place. place_view place ≡
        record {
          basis = basis.now;
          way = waypoint (R.state rates.now).basics
              (R.state rates.now).waypoints way;
        }) }
{
    let size = lp.number_of_variables() as usize;
    let mut marks = vec![in alloc; false; size].map_err(|_| NoMemory)?;
    rates.way_basics(way, &mut marks);
    Ok(Place {
        basis: basis.copy(alloc)?,
        way: marks,
    })
}

/// An operation is refused at a basis.
pub fn overflow_at<R: Rates>(
    alloc: Global,
    lp: &Lp,
    basis: &Basis,
    rates: &R,
    evidence: Evidence,
) -> Result<Finding, Halt>
    requires rates { IsAtBasis (R.state rates.now) lp.now basis.now }
    requires way { evidence.way ≤ length (R.state rates.now).waypoints }
    ensures { IsOverflowAt basis.now (R.state rates.now).waypoints evidence result }
{
    match place_at(alloc, lp, basis, rates, evidence.way) {
        Ok(place) => Ok(Finding::Overflow {
            evidence,
            place: Some(place),
        }),
        Err(NoMemory) => Err(Halt::NoMemory),
    }
}
