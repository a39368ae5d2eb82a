// PUNCH.
ghost use Rattle.std.specs.Prelude.{ℕ, List, IfSome};
ghost use Rattle.control_definitions.specs.Program as program;
ghost use Rattle.fitting_answers.specs.Real.{linear_programming_of_128_bits};
ghost use Rattle.setup_verbs.specs.Standing.{IsReady};
ghost use Rattle.setup_verbs.specs.Statements.{Performs};

use crate::kept::Setup;
use basis_deck::punch_basis;
use job_devices::Sink;
use listing_definitions::VerbFault;
use lp_model::Engine;
use report_text::{Report, text_of};
use run_machine::{Act, Halt, Machine, Refusal, problem_on_file, select_present};
use std::alloc::Global;

/// PUNCH: selects by the cells as they stand, punches the deck of the present basis, and prints the number of its cards.
///
/// The statement is refused where there is no setup, and where the cells select nothing. Where there is no memory, nothing is printed
/// and nothing is punched.
pub fn punch_present<E: Engine, P: Sink, U: Sink>(
    alloc: Global,
    machine: &Machine<Setup<E>>,
    print: &mut P,
    punch: &mut U,
    card: u32,
) -> Result<Act, Halt>
    requires { IfSome machine.now.setup (IsReady machine.now.file) }
    ensures { (cards : List (List ℕ)) →
        Performs linear_programming_of_128_bits program.Punch card (P.taken print.old)
        (P.taken print.new)
        (U.taken punch.old) (U.taken punch.new) cards machine.now machine.now result }
{
    let Some(setup) = &machine.setup else {
        return Refusal::Fault(VerbFault::NoSetup).act(card);
    };
    let problem = problem_on_file(&machine.file, &setup.name);
    let lp = match select_present(alloc, problem, &machine.cells, setup.options) {
        Ok(lp) => lp,
        Err(refusal) => return refusal.act(card),
    };
    let count = match punch_basis(problem, &lp, &setup.basis, punch) {
        Ok(count) => count,
        Err(stop) => return Err(Halt::Punch(stop)),
    };
    let report = Report::BasisOut {
        name: problem.name(),
        cards: count,
    };
    text_of(&report, print)?;
    Ok(Act::Next)
}
