// The run of a program.
ghost use Rattle.std.specs.Prelude.{◌≤◌, length};
ghost use Rattle.run_definitions.specs.State.{start};
ghost use Rattle.fitting_answers.specs.Real.{linear_programming_of_128_bits};
ghost use Rattle.setup_verbs.specs.Standing.{IsSound, Represents};
ghost use Rattle.control_run.specs.Running.{decks_after, Runs};
ghost use Rattle.control_run.specs.Ended.{IsEndOfRun};

use crate::execute::step;
use crate::finish::{finish, finish_halted};
use crate::status::RunStatus;
use card_reader::Cards;
use control_compiler::{Program, RunInput};
use job_devices::Sink;
use lp_model::Engine;
use reinversion::ProductForm;
use run_machine::{AfterStatement, End, Halt, MAX_EXECUTED, Machine};
use setup_verbs::Setup;
use std::alloc::Global;

/// The engine of the program mps360: the product form of the inverse.
pub type RunEngine = ProductForm;

// Executes the statements of a program, from the first one until the run ends.
fn run_statements<E: Engine, P: Sink, U: Sink>(
    alloc: Global,
    machine: &mut Machine<Setup<E>>,
    input: RunInput<'_>,
    print: &mut P,
    punch: &mut U,
) -> Result<End, Halt>
    requires sound { IsSound input.cards.now machine.old }
    requires start { Represents input.cards.now machine.old 1 0
        (start (decks_after input.program.now input.cards.now)) }
    ensures { Runs linear_programming_of_128_bits input.entry.program.now input.entry.cards.now
        (P.taken print.old) (P.taken print.new) (U.taken punch.old) (U.taken punch.new)
        result }
{
    let mut position = 1;
    let mut executed = 0;
    while position <= input.program.count() {
        if executed >= MAX_EXECUTED {
            return Ok(End::Statements);
        }
        executed += 1;
        match step(alloc, machine, input, print, punch, position) {
            Ok(AfterStatement::Goes(to)) => position = to,
            Ok(AfterStatement::Ends(end)) => return Ok(end),
            Err(halt) => return Err(halt),
        }
    }
    Ok(End::Done)
}

// Runs a program on a machine of its own, until the run ends.
fn run<E: Engine, P: Sink, U: Sink>(
    alloc: Global,
    input: RunInput<'_>,
    print: &mut P,
    punch: &mut U,
) -> Result<End, Halt>
    ensures { Runs linear_programming_of_128_bits input.entry.program.now input.entry.cards.now
        (P.taken print.old) (P.taken print.new) (U.taken punch.old) (U.taken punch.new)
        result }
{
    let decks_from = input.program.decks_from();
    let mut machine = Machine::<Setup<E>>::new(alloc, input.cards, decks_from);
    run_statements(alloc, &mut machine, input, print, punch)
}

/// Runs a compiled program over the cards of its job, with the rates of any engine: prints the listing, punches the decks, and
/// answers how the run ended.
///
/// A run ends by itself; where memory runs out, or a write to the punch fails, the listing ends with that, if it can. After a
/// fault of the print, or where the print itself runs out of memory, nothing more is printed. After a fault of the punch, or where it
/// runs out of memory, nothing more is punched: it has gained all cards of the reports so far, and a prefix of the deck in hand. The
/// status reports whichever of these came.
pub fn run_on<E: Engine, P: Sink, U: Sink>(
    alloc: Global,
    program: &Program,
    cards: &Cards,
    print: &mut P,
    punch: &mut U,
) -> RunStatus
    ensures { IsEndOfRun linear_programming_of_128_bits program.now cards.now
        (P.taken print.old) (P.taken print.new) (U.taken punch.old) (U.taken punch.new)
        result }
{
    match run::<E, P, U>(alloc, RunInput { program, cards }, print, punch) {
        Ok(end) => finish(print, &end),
        Err(halt) => finish_halted(print, halt),
    }
}
