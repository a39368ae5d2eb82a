// SETUP.
ghost use Rattle.std.specs.Prelude.{◌≡◌, IfOk, IfErr};
ghost use Rattle.control_definitions.specs.Program as program;
ghost use Rattle.fitting_answers.specs.Real.{linear_programming_of_128_bits};
ghost use Rattle.setup_verbs.specs.Standing.{StaysSound};
ghost use Rattle.setup_verbs.specs.Statements.{ExecutesOnAny};
ghost use Rattle.setup_verbs.specs.Opening.{IsOpened, IsNotOpened};

use crate::kept::Setup;
use bounded_primal::opening;
use control_verbs::SetupOptions;
use job_devices::Sink;
use listing_definitions::VerbFault;
use lp_model::Engine;
use name_table::Name;
use problem_file::ProblemFile;
use report_text::{Report, text_of};
use run_cells::{Cells, NameCell};
use run_machine::{Act, Halt, Machine, Refusal, present_choice, select_present, wanted_name};
use std::alloc::Global;

/// A problem that was chosen: its own name, and what is kept of it.
#[derive(Drop)]
pub struct Opened<S> {
    pub name: Name,
    pub setup: S,
}

// Chooses the problem, selects of it, and opens with the basis of that selection.
fn open<E: Engine>(
    alloc: Global,
    cells: &Cells,
    file: &ProblemFile,
    options: SetupOptions,
) -> Result<Opened<Setup<E>>, Refusal>
    ensures opened { IfOk result (IsOpened cells.now file.now options) }
    ensures refused { IfErr result (IsNotOpened cells.now file.now options) }
{
    let Some(name) = wanted_name(cells.name(NameCell::Xpbname), file) else {
        return Err(Refusal::Fault(VerbFault::NoProblem));
    };
    let Some(problem) = file.get(&name) else {
        return Err(Refusal::Fault(VerbFault::NoProblem));
    };
    let choice = present_choice(cells, options);
    let lp = match select_present(alloc, problem, cells, options) {
        Ok(lp) => lp,
        Err(refusal) => return Err(refusal),
    };
    let Ok((basis, engine)) = opening::<E>(alloc, &lp) else {
        return Err(Refusal::NoMemory);
    };
    Ok(Opened {
        name: problem.name(),
        setup: Setup {
            name,
            options,
            objective: choice.objective,
            rhs: choice.rhs,
            lp,
            basis,
            engine,
        },
    })
}

/// SETUP: chooses the problem that XPBNAME names, or else the one filed last, selects of it by the present cells and these options,
/// and keeps it with the opening basis and its rates. Clears the mark.
pub fn set_up<E: Engine, P: Sink>(
    alloc: Global,
    machine: &mut Machine<Setup<E>>,
    print: &mut P,
    card: u32,
    options: &SetupOptions,
) -> Result<Act, Halt>
    ensures acts { ExecutesOnAny linear_programming_of_128_bits (program.Setup options.now) card
        (P.taken print.old) (P.taken print.new) machine.old machine.new result }
    ensures sound { StaysSound machine.old machine.new }
{
    let opened = match open(alloc, &machine.cells, &machine.file, *options) {
        Ok(opened) => opened,
        Err(refusal) => return refusal.act(card),
    };
    let Opened { name, setup } = opened;
    let report = Report::SetUp {
        name,
        sense: options.sense,
    };
    text_of(&report, print)?;
    machine.setup = Some(setup);
    machine.mark = None;
    Ok(Act::Next)
}
