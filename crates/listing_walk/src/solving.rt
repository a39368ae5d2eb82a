// PRIMAL and DUAL.
ghost use Rattle.std.specs.Prelude.{◌≡◌, ◌+◌, ◌≤◌, ◌<◌, ℕ, List, Some, IfOk, IfSome};
ghost use Rattle.run_machine.specs.Standing.{AreDemands};
ghost use Rattle.run_machine.specs.SolvingVerbs.{verb_of};
ghost use Rattle.listing_walk.specs.Standing.{IsReady, IsSound};
ghost use Rattle.listing_walk.specs.Walking.{Walks};
ghost use Rattle.walk_definitions.specs.Words.{max_count};

use crate::answering::{answer_path, stop_walk};
use crate::chosen::Chosen;
use crate::follow::{fault, finish, refuse};
use crate::place::ListingPlace;
use crate::selecting::select_present;
use crate::walk_step::WalkStep;
use job_devices::NoMemory;
use listing_claims::Checks;
use listing_definitions::{Mark, VerbFault};
use listing_tables::Sheet;
use lp_model::Lp;
use run_machine::{Finding, Machine, SolvingVerb, act_of, problem_on_file, solver_of};
use std::alloc::Global;

// Keeps what was selected, and the mark of the verdict.
fn keep(machine: &mut Machine<Chosen>, lp: Lp, mark: Mark)
    ensures { (chosen : Chosen) → machine.old.setup ≡ Some chosen →
        machine.new ≡
        record machine.old { setup = Some (record chosen { lp = lp }); mark = Some mark } }
{
    if let Some(chosen) = &mut machine.setup {
        chosen.lp = lp;
    }
    machine.mark = Some(mark);
}

/// PRIMAL and DUAL: selects again by the cells as they stand, and takes the verdict from the listing, which leaves its mark. An optimal
/// verdict is pending until SOLUTION shows it.
pub fn solve<'a, T: Checks>(
    alloc: Global,
    machine: &mut Machine<Chosen>,
    place: &mut ListingPlace<'a>,
    card: u32,
    verb: SolvingVerb,
) -> Result<WalkStep<'a>, NoMemory>
    requires demands { AreDemands machine.old.cells }
    requires ready { IfSome machine.old.setup (IsReady machine.old.file) }
    requires few { place.old.reports < max_count }
    ensures walks { (cards : List (List ℕ)) →
        IfOk result
        (Walks T.checker (verb_of verb) card cards machine.old machine.new place.old place.new) }
    ensures sound { (cards : List (List ℕ)) → IsSound cards machine.old →
        IsSound cards machine.new }
    ensures few { place.new.reports ≤ place.old.reports + 1 }
{
    let Some(chosen) = &machine.setup else {
        return fault(alloc, machine, place, VerbFault::NoSetup, card);
    };
    let problem = problem_on_file(&machine.file, &chosen.name);
    let lp = match select_present(alloc, problem, &machine.cells, chosen.options) {
        Ok(lp) => lp,
        Err(refusal) => {
            let found = place.unchecked();
            return refuse(alloc, machine, place, refusal, found, card);
        }
    };
    let sheet = Sheet { problem, lp: &lp };
    let mark = match answer_path::<T>(alloc, place, sheet, solver_of(verb)) {
        Ok(mark) => mark,
        Err(stopped) => return stop_walk(stopped),
    };
    keep(machine, lp, mark);
    let act = act_of(&machine.cells, card, Finding::Ended(mark));
    finish(alloc, place, &act)
}
