// The statements of a program.
ghost use Rattle.std.specs.Prelude.{◌+◌, ◌≤◌, ◌<◌, [], IfOk, length};
ghost use Rattle.control_verbs.specs.Views.{viewed};
ghost use Rattle.control_compiler.specs.Valid.{IsProgram};
ghost use Rattle.run_machine.specs.Statements.{IsSoundVerb};
ghost use Rattle.listing_walk.specs.Parameter.{use_of, IsNoRun};
ghost use Rattle.listing_walk.specs.Standing.{IsSound, holding};
ghost use Rattle.listing_walk.specs.Walking.{Passes, Walks, Steps};
ghost use Rattle.walk_definitions.specs.Words.{max_count};

use crate::chosen::Chosen;
use crate::follow::follow;
use crate::inserting::insert;
use crate::parameter::{ParameterUse, as_next, use_of};
use crate::parametric_runs::parametric_run;
use crate::place::ListingPlace;
use crate::reporting::{punch_basis, show_ranges};
use crate::setup::set_up;
use crate::solution::show_solution;
use crate::solving::solve;
use crate::statements::{make_problem, punch_problem, title};
use crate::walk_step::{AfterStep, WalkStep};
use card_reader::Cards;
use control_compiler::{RunInput, Statement, Verb};
use job_devices::NoMemory;
use listing_claims::Checks;
use listing_words::Number;
use run_machine::{Act, DeckVerb, Machine, SolvingVerb};
use std::alloc::Global;

// Goes on as the act of a statement says that prints nothing.
fn quietly<'a>(
    alloc: Global,
    act: Act,
    machine: &Machine<Chosen>,
    place: &mut ListingPlace<'a>,
) -> Result<WalkStep<'a>, NoMemory>
    requires { place.old.reports < max_count }
    ensures passes { IfOk result (Passes machine.now place.old place.new act []) }
    ensures few { place.new.reports ≤ place.old.reports + 1 }
{
    follow(alloc, machine, place, &act, &[])
}

// Follows a statement that begins no parametric run.
fn execute<'a, T: Checks>(
    alloc: Global,
    machine: &mut Machine<Chosen>,
    cards: &Cards,
    place: &mut ListingPlace<'a>,
    statement: &Statement<u32>,
) -> Result<WalkStep<'a>, NoMemory>
    requires sound { IsSound cards.now machine.old }
    requires verb { IsSoundVerb (viewed statement.now.verb) }
    requires no_run { IsNoRun (use_of (viewed statement.now.verb)) }
    requires few { place.old.reports < max_count }
    ensures walks { IfOk result
        (Walks T.checker (viewed statement.now.verb) statement.now.card
        cards.now machine.old machine.new place.old place.new) }
    ensures sound { IsSound cards.now machine.new }
    ensures few { place.new.reports ≤ place.old.reports + 1 }
{
    let card = statement.card;
    match &statement.verb {
        Verb::Initialz => quietly(alloc, machine.initialize(), machine, place),
        Verb::Title(text) => title(alloc, machine, place, text),
        Verb::MoveName(cell, name) => {
            quietly(alloc, machine.move_name(*cell, *name), machine, place)
        }
        Verb::MoveNumber(cell, value) => {
            quietly(alloc, machine.move_number(*cell, *value), machine, place)
        }
        Verb::MoveLimit(limit) => quietly(alloc, machine.move_limit(*limit), machine, place),
        Verb::Mvadr(demand, position) => {
            let act = machine.set_demand(*demand, *position);
            quietly(alloc, act, machine, place)
        }
        Verb::Goto(position) => quietly(alloc, machine.jump(*position), machine, place),
        Verb::Convert => make_problem(alloc, machine, DeckVerb::Convert, cards, place, card),
        Verb::Setup(options) => set_up(alloc, machine, place, card, options),
        Verb::Revise => make_problem(alloc, machine, DeckVerb::Revise, cards, place, card),
        Verb::Bcdout => punch_problem(alloc, machine, place, card),
        Verb::Exit => quietly(alloc, machine.exit(), machine, place),
        Verb::Primal => solve::<T>(alloc, machine, place, card, SolvingVerb::Primal),
        Verb::Dual => solve::<T>(alloc, machine, place, card, SolvingVerb::Dual),
        Verb::Solution => show_solution::<T>(alloc, machine, place, card),
        Verb::Ranging => show_ranges(alloc, machine, place, card),
        Verb::Punch => punch_basis(alloc, machine, place, card),
        Verb::Insert => insert(alloc, machine, cards, place, card),
        Verb::Paraobj | Verb::Pararhs => unreachable!(),
    }
}

// Follows a statement, with what a run left in XPARAM where no cell holds it.
fn execute_with<'a, T: Checks>(
    alloc: Global,
    machine: &mut Machine<Chosen>,
    cards: &Cards,
    place: &mut ListingPlace<'a>,
    last: &mut Option<Number<'a>>,
    statement: &Statement<u32>,
) -> Result<WalkStep<'a>, NoMemory>
    requires sound { IsSound cards.now machine.old }
    requires verb { IsSoundVerb (viewed statement.now.verb) }
    requires few { place.old.reports < max_count }
    ensures walks { IfOk result
        (Walks T.checker (viewed statement.now.verb) statement.now.card
        cards.now (holding last.old machine.old)
        (holding last.new machine.new) place.old place.new) }
    ensures sound { IsSound cards.now machine.new }
    ensures few { place.new.reports ≤ place.old.reports + 1 }
{
    match use_of(&statement.verb) {
        ParameterUse::Reads(asked) => {
            parametric_run::<T>(alloc, machine, place, last, statement.card, asked)
        }
        ParameterUse::Sets => {
            *last = None;
            execute::<T>(alloc, machine, cards, place, statement)
        }
        ParameterUse::Neither => match last {
            None => execute::<T>(alloc, machine, cards, place, statement),
            Some(_) => Ok(as_next(execute::<T>(alloc, machine, cards, place, statement)?)),
        },
    }
}

/// Follows the statement at a position, with what a run left in XPARAM where no cell holds it.
pub fn step<'a, T: Checks>(
    alloc: Global,
    machine: &mut Machine<Chosen>,
    input: RunInput<'_>,
    place: &mut ListingPlace<'a>,
    last: &mut Option<Number<'a>>,
    position: u32,
) -> Result<AfterStep<'a>, NoMemory>
    requires valid { IsProgram input.program.now }
    requires first { 1 ≤ position }
    requires within { position ≤ length input.program.now.statements }
    requires sound { IsSound input.cards.now machine.old }
    requires few { place.old.reports < max_count }
    ensures steps { IfOk result
        (Steps T.checker input.entry.program.now input.entry.cards.now position
        (holding last.old machine.old) (holding last.new machine.new) place.old place.new) }
    ensures sound { IsSound input.entry.cards.now machine.new }
    ensures few { place.new.reports ≤ place.old.reports + 1 }
{
    let next = input.program.statement(position);
    match execute_with::<T>(alloc, machine, input.cards, place, last, next) {
        Ok(WalkStep::Next) => Ok(AfterStep::Goes(position + 1)),
        Ok(WalkStep::Leaves(value)) => {
            *last = Some(value);
            Ok(AfterStep::Goes(position + 1))
        }
        Ok(WalkStep::Jump(to)) => Ok(AfterStep::Goes(to)),
        Ok(WalkStep::Finds(found)) => Ok(AfterStep::Finds(found)),
        Err(refused) => Err(refused),
    }
}
