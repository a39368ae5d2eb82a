// The statements of a program.
ghost use Rattle.std.specs.Prelude.{◌≡◌, ◌≤◌, length};
ghost use Rattle.control_verbs.specs.Views.{viewed};
ghost use Rattle.control_compiler.specs.Valid.{IsProgram};
ghost use Rattle.fitting_answers.specs.Real.{linear_programming_of_128_bits};
ghost use Rattle.setup_verbs.specs.Standing.{IsSound};
ghost use Rattle.run_machine.specs.Statements.{IsSoundVerb};
ghost use Rattle.setup_verbs.specs.Statements.{Performs};
ghost use Rattle.control_run.specs.Running.{Steps};

use card_reader::Cards;
use control_compiler::{RunInput, Statement, Verb};
use job_devices::Sink;
use lp_model::Engine;
use parametric_request::ParametricVerb;
use run_machine::{Act, AfterStatement, DeckVerb, Halt, Machine, SolvingVerb};
use setup_verbs::{Setup, insert_basis, punch_present, set_up};
use showing_verbs::{ShowingVerb, show_present};
use solving_verbs::{show_parametric_run, solve};
use std::alloc::Global;

/// Does what a statement says.
fn execute<E: Engine, P: Sink, U: Sink>(
    alloc: Global,
    machine: &mut Machine<Setup<E>>,
    cards: &Cards,
    print: &mut P,
    punch: &mut U,
    statement: &Statement<u32>,
) -> Result<Act, Halt>
    requires sound { IsSound cards.now machine.old }
    requires verb { IsSoundVerb (viewed statement.now.verb) }
    ensures acts { Performs linear_programming_of_128_bits
        (viewed statement.now.verb) statement.now.card
        (P.taken print.old) (P.taken print.new) (U.taken punch.old) (U.taken punch.new)
        cards.now machine.old machine.new result }
    ensures sound { IsSound cards.now machine.new }
{
    let card = statement.card;
    match &statement.verb {
        Verb::Initialz => Ok(machine.initialize()),
        Verb::Title(text) => machine.print_title(print, text),
        Verb::MoveName(cell, name) => Ok(machine.move_name(*cell, *name)),
        Verb::MoveNumber(cell, value) => Ok(machine.move_number(*cell, *value)),
        Verb::MoveLimit(limit) => Ok(machine.move_limit(*limit)),
        Verb::Mvadr(demand, position) => Ok(machine.set_demand(*demand, *position)),
        Verb::Goto(position) => Ok(machine.jump(*position)),
        Verb::Convert => machine.make_problem(alloc, DeckVerb::Convert, cards, print, card),
        Verb::Setup(options) => set_up(alloc, machine, print, card, options),
        Verb::Primal => solve(alloc, machine, print, card, SolvingVerb::Primal),
        Verb::Dual => solve(alloc, machine, print, card, SolvingVerb::Dual),
        Verb::Solution => show_present(alloc, machine, print, card, ShowingVerb::Solution),
        Verb::Revise => machine.make_problem(alloc, DeckVerb::Revise, cards, print, card),
        Verb::Ranging => show_present(alloc, machine, print, card, ShowingVerb::Ranging),
        Verb::Paraobj => show_parametric_run(alloc, machine, print, card, ParametricVerb::Paraobj),
        Verb::Pararhs => show_parametric_run(alloc, machine, print, card, ParametricVerb::Pararhs),
        Verb::Bcdout => machine.punch_problem(print, punch, card),
        Verb::Punch => punch_present(alloc, machine, print, punch, card),
        Verb::Insert => insert_basis(alloc, machine, cards, print, card),
        Verb::Exit => Ok(machine.exit()),
    }
}

/// Executes the statement at a position.
pub fn step<E: Engine, P: Sink, U: Sink>(
    alloc: Global,
    machine: &mut Machine<Setup<E>>,
    input: RunInput<'_>,
    print: &mut P,
    punch: &mut U,
    position: u32,
) -> Result<AfterStatement, Halt>
    requires valid { IsProgram input.program.now }
    requires first { 1 ≤ position }
    requires within { position ≤ length input.program.now.statements }
    requires sound { IsSound input.cards.now machine.old }
    ensures steps { Steps linear_programming_of_128_bits input.entry.program.now input.entry.cards.now
        (P.taken print.old) (P.taken print.new) (U.taken punch.old) (U.taken punch.new)
        position machine.old machine.new result }
    ensures sound { IsSound input.entry.cards.now machine.new }
{
    let next = input.program.statement(position);
    let act = execute(alloc, machine, input.cards, print, punch, next)?;
    Ok(act.turn(position))
}
