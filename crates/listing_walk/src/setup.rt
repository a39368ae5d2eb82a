// SETUP.
ghost use Rattle.std.specs.Prelude.{◌≡◌, ◌+◌, ◌≤◌, ◌<◌, ℕ, List, IfOk, IfErr};
ghost use Rattle.job_devices.specs.Memory.{sure_bytes};
ghost use Rattle.job_devices.specs.Text.{Writes};
ghost use Rattle.control_definitions.specs.Program as program;
ghost use Rattle.listing_definitions.specs.Report.{SetUp};
ghost use Rattle.listing_definitions.specs.Text.{report_text};
ghost use Rattle.walk_definitions.specs.Checkers.{Checker};
ghost use Rattle.listing_walk.specs.Choosing.{IsOpened, IsNotOpened};
ghost use Rattle.listing_walk.specs.Standing.{IsSound};
ghost use Rattle.listing_walk.specs.Walking.{Walks};
ghost use Rattle.walk_definitions.specs.Words.{max_count};

use crate::chosen::{Chosen, Named};
use crate::follow::{follow, refuse};
use crate::place::ListingPlace;
use crate::selecting::{Unselected, select_present};
use crate::walk_step::WalkStep;
use control_verbs::SetupOptions;
use job_devices::{NoMemory, Sink, SureSink, WriteStop};
use listing_definitions::VerbFault;
use lp_definitions::Sense;
use name_table::Name;
use problem_file::ProblemFile;
use report_text::{Report, text_of};
use run_cells::{Cells, NameCell};
use run_machine::{Act, Machine, wanted_name};
use std::alloc::Global;

// Chooses the problem, and selects of it.
fn choose(
    alloc: Global,
    cells: &Cells,
    file: &ProblemFile,
    options: SetupOptions,
) -> Result<Named, Unselected>
    ensures opened { IfOk result (IsOpened cells.now file.now options) }
    ensures refused { IfErr result (IsNotOpened cells.now file.now options) }
{
    let Some(name) = wanted_name(cells.name(NameCell::Xpbname), file) else {
        return Err(Unselected::Fault(VerbFault::NoProblem));
    };
    let Some(problem) = file.get(&name) else {
        return Err(Unselected::Fault(VerbFault::NoProblem));
    };
    match select_present(alloc, problem, cells, options) {
        Ok(lp) => Ok(Named {
            name: problem.name(),
            chosen: Chosen { name, options, lp },
        }),
        Err(refusal) => Err(refusal),
    }
}

// Writes the report of SETUP.
fn put_set_up<P: Sink>(print: &mut P, name: Name, sense: Sense) -> Result<(), WriteStop>
    ensures { Writes (P.taken print.old) (P.taken print.new) result
        (report_text (SetUp name sense)) }
{
    text_of(&Report::SetUp { name, sense }, print)
}

// The report of SETUP.
fn set_up_text(alloc: Global, name: Name, sense: Sense) -> Result<SureSink, NoMemory>
    ensures { IfOk result (λ text. sure_bytes text ≡ report_text (SetUp name sense)) }
{
    let mut text = SureSink::new(alloc)?;
    match put_set_up(&mut text, name, sense) {
        Ok(()) => Ok(text),
        Err(_) => Err(NoMemory),
    }
}

/// SETUP: chooses the problem that XPBNAME names, or else the one filed last, selects of it by the present cells and these options,
/// and keeps it. Clears the mark.
pub fn set_up<'a>(
    alloc: Global,
    machine: &mut Machine<Chosen>,
    place: &mut ListingPlace<'a>,
    card: u32,
    options: &SetupOptions,
) -> Result<WalkStep<'a>, NoMemory>
    requires { place.old.reports < max_count }
    ensures walks { (C : Checker) (cards : List (List ℕ)) → IfOk result
        (Walks C (program.Setup options.now) card cards
        machine.old machine.new place.old place.new) }
    ensures sound { (cards : List (List ℕ)) → IsSound cards machine.old →
        IsSound cards machine.new }
    ensures few { place.new.reports ≤ place.old.reports + 1 }
{
    match choose(alloc, &machine.cells, &machine.file, *options) {
        Ok(named) => {
            let Named { name, chosen } = named;
            machine.setup = Some(chosen);
            machine.mark = None;
            let text = set_up_text(alloc, name, options.sense)?;
            follow(alloc, machine, place, &Act::Next, text.bytes())
        }
        Err(refusal) => {
            let found = place.unchecked();
            refuse(alloc, machine, place, refusal, found, card)
        }
    }
}
