// The statements that ask nothing of linear programming.
ghost use Rattle.std.specs.Prelude.{◌≡◌, ◌+◌, ◌≤◌, ◌<◌, ℕ, List, IfOk};
ghost use Rattle.control_definitions.specs.Program as program;
ghost use Rattle.run_machine.specs.Describing.{verb_of};
ghost use Rattle.walk_definitions.specs.Checkers.{Checker};
ghost use Rattle.listing_walk.specs.Standing.{IsSound};
ghost use Rattle.listing_walk.specs.Walking.{Walks};
ghost use Rattle.walk_definitions.specs.Words.{max_count};

use crate::chosen::Chosen;
use crate::follow::follow;
use crate::place::ListingPlace;
use crate::walk_step::WalkStep;
use card_reader::Cards;
use control_verbs::Text;
use job_devices::{Discard, NoMemory, SureSink};
use run_machine::{DeckVerb, Machine};
use std::alloc::Global;

/// TITLE.
pub fn title<'a>(
    alloc: Global,
    machine: &Machine<Chosen>,
    place: &mut ListingPlace<'a>,
    text: &Text,
) -> Result<WalkStep<'a>, NoMemory>
    requires { place.old.reports < max_count }
    ensures walks { (C : Checker) (card : ℕ) (cards : List (List ℕ)) →
        IfOk result
        (Walks C (program.Title text.now) card cards machine.now machine.now place.old place.new) }
    ensures few { place.new.reports ≤ place.old.reports + 1 }
{
    let mut printed = SureSink::new(alloc)?;
    let Ok(act) = machine.print_title(&mut printed, text) else {
        return Err(NoMemory);
    };
    follow(alloc, machine, place, &act, printed.bytes())
}

/// CONVERT and REVISE.
pub fn make_problem<'a>(
    alloc: Global,
    machine: &mut Machine<Chosen>,
    verb: DeckVerb,
    cards: &Cards,
    place: &mut ListingPlace<'a>,
    card: u32,
) -> Result<WalkStep<'a>, NoMemory>
    requires sound { IsSound cards.now machine.old }
    requires few { place.old.reports < max_count }
    ensures walks { (C : Checker) →
        IfOk result
        (Walks C (verb_of verb) card cards.now machine.old machine.new place.old place.new) }
    ensures sound { IsSound cards.now machine.new }
    ensures few { place.new.reports ≤ place.old.reports + 1 }
{
    let mut printed = SureSink::new(alloc)?;
    let Ok(act) = machine.make_problem(alloc, verb, cards, &mut printed, card) else {
        return Err(NoMemory);
    };
    follow(alloc, machine, place, &act, printed.bytes())
}

/// BCDOUT. Its deck is of no matter here.
pub fn punch_problem<'a>(
    alloc: Global,
    machine: &Machine<Chosen>,
    place: &mut ListingPlace<'a>,
    card: u32,
) -> Result<WalkStep<'a>, NoMemory>
    requires { place.old.reports < max_count }
    ensures walks { (C : Checker) (cards : List (List ℕ)) →
        IfOk result
        (Walks C program.Bcdout card cards machine.now machine.now place.old place.new) }
    ensures few { place.new.reports ≤ place.old.reports + 1 }
{
    let mut printed = SureSink::new(alloc)?;
    let mut punched = Discard;
    let Ok(act) = machine.punch_problem(&mut printed, &mut punched, card) else {
        return Err(NoMemory);
    };
    follow(alloc, machine, place, &act, printed.bytes())
}
