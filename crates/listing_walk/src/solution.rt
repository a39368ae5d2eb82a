// SOLUTION.
ghost use Rattle.std.specs.Prelude.{◌≡◌, ◌+◌, ◌≤◌, ◌<◌, ℕ, List, IfOk, IfSome};
ghost use Rattle.control_definitions.specs.Program as program;
ghost use Rattle.listing_walk.specs.Standing.{IsReady, IsSolved};
ghost use Rattle.listing_walk.specs.Walking.{Walks};
ghost use Rattle.walk_definitions.specs.Words.{max_count};

use crate::answering::{answer_solution, stop_walk};
use crate::chosen::Chosen;
use crate::follow::fault;
use crate::place::ListingPlace;
use crate::walk_step::WalkStep;
use job_devices::NoMemory;
use listing_claims::Checks;
use listing_definitions::VerbFault;
use listing_tables::Sheet;
use run_machine::{Machine, problem_on_file};
use std::alloc::Global;

/// SOLUTION: takes the point and the prices from the listing. It needs a setup and a mark, and speaks of the linear program that PRIMAL
/// or DUAL selected.
pub fn show_solution<'a, T: Checks>(
    alloc: Global,
    machine: &Machine<Chosen>,
    place: &mut ListingPlace<'a>,
    card: u32,
) -> Result<WalkStep<'a>, NoMemory>
    requires ready { IfSome machine.now.setup (IsReady machine.now.file) }
    requires solved { IfSome machine.now.mark
        (λ mark. IfSome machine.now.setup
        (IsSolved mark machine.now.cells.xobj machine.now.cells.xrhs machine.now.file)) }
    requires few { place.old.reports < max_count }
    ensures walks { (cards : List (List ℕ)) →
        IfOk result
        (Walks T.checker program.Solution card cards machine.now machine.now place.old place.new) }
    ensures few { place.new.reports ≤ place.old.reports + 1 }
{
    let Some(chosen) = &machine.setup else {
        return fault(alloc, machine, place, VerbFault::NoSetup, card);
    };
    let Some(mark) = machine.mark else {
        return fault(alloc, machine, place, VerbFault::NotSolved, card);
    };
    let problem = problem_on_file(&machine.file, &chosen.name);
    let sheet = Sheet {
        problem,
        lp: &chosen.lp,
    };
    let _lawful = chosen.lp.number_of_variables();
    match answer_solution::<T>(alloc, place, sheet, mark) {
        Ok(()) => Ok(WalkStep::Next),
        Err(stopped) => stop_walk(stopped),
    }
}
