// RANGE and PUNCH, whose reports can't be attested.
ghost use Rattle.std.specs.Prelude.{◌≡◌, ◌+◌, ◌≤◌, ◌<◌, ℕ, List, IfOk, IfSome};
ghost use Rattle.control_definitions.specs.Program as program;
ghost use Rattle.walk_definitions.specs.Checkers.{Checker};
ghost use Rattle.listing_walk.specs.Standing.{IsReady, IsSolved};
ghost use Rattle.listing_walk.specs.Walking.{Walks};
ghost use Rattle.walk_definitions.specs.Words.{max_count};

use crate::answering::is_optimal;
use crate::chosen::Chosen;
use crate::follow::{fault, refuse};
use crate::place::ListingPlace;
use crate::selecting::select_present;
use crate::walk_step::WalkStep;
use job_devices::NoMemory;
use listing_definitions::VerbFault;
use listing_readers::{is_punched, is_ranges};
use run_machine::{Machine, problem_on_file};
use std::alloc::Global;

/// RANGE. It needs a setup, a mark, and the mark OPTIMAL.
pub fn show_ranges<'a>(
    alloc: Global,
    machine: &Machine<Chosen>,
    place: &mut ListingPlace<'a>,
    card: u32,
) -> Result<WalkStep<'a>, NoMemory>
    requires ready { IfSome machine.now.setup (IsReady machine.now.file) }
    requires solved { IfSome machine.now.mark
        (λ mark. IfSome machine.now.setup
        (IsSolved mark machine.now.cells.xobj machine.now.cells.xrhs machine.now.file)) }
    requires few { place.old.reports < max_count }
    ensures walks { (C : Checker) (cards : List (List ℕ)) →
        IfOk result
        (Walks C program.Ranging card cards machine.now machine.now place.old place.new) }
    ensures few { place.new.reports ≤ place.old.reports + 1 }
{
    let Some(_chosen) = &machine.setup else {
        return fault(alloc, machine, place, VerbFault::NoSetup, card);
    };
    let Some(mark) = machine.mark else {
        return fault(alloc, machine, place, VerbFault::NotSolved, card);
    };
    if !is_optimal(mark) {
        return fault(alloc, machine, place, VerbFault::NotOptimal, card);
    }
    let stands = is_ranges(place.cursor.left());
    Ok(WalkStep::Finds(place.reported_here(stands, true)))
}

/// PUNCH. It needs a setup, and selects again by the cells as they stand.
pub fn punch_basis<'a>(
    alloc: Global,
    machine: &Machine<Chosen>,
    place: &mut ListingPlace<'a>,
    card: u32,
) -> Result<WalkStep<'a>, NoMemory>
    requires ready { IfSome machine.now.setup (IsReady machine.now.file) }
    requires few { place.old.reports < max_count }
    ensures walks { (C : Checker) (cards : List (List ℕ)) →
        IfOk result (Walks C program.Punch card cards machine.now machine.now place.old place.new) }
    ensures few { place.new.reports ≤ place.old.reports + 1 }
{
    let Some(chosen) = &machine.setup else {
        return fault(alloc, machine, place, VerbFault::NoSetup, card);
    };
    let problem = problem_on_file(&machine.file, &chosen.name);
    let stands = is_punched(place.cursor.left(), problem.name());
    match select_present(alloc, problem, &machine.cells, chosen.options) {
        Ok(_lp) => Ok(WalkStep::Finds(place.reported_here(stands, true))),
        Err(refusal) => {
            let found = place.reported_here(stands, false);
            refuse(alloc, machine, place, refusal, found, card)
        }
    }
}
