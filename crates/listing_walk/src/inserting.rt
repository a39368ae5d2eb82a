// INSERT, whose report can't be attested.
ghost use Rattle.std.specs.Prelude.{◌≡◌, ◌+◌, ◌≤◌, ◌<◌, IfOk, IfSome};
ghost use Rattle.control_definitions.specs.Program as program;
ghost use Rattle.walk_definitions.specs.Checkers.{Checker};
ghost use Rattle.listing_walk.specs.Standing.{IsSound};
ghost use Rattle.listing_walk.specs.Walking.{Walks};
ghost use Rattle.listing_walk.specs.Inserting.{is_line_of, is_line_due, LiesWithin, IsInstallDue, IsInstallRefused};
ghost use Rattle.basis_deck_definitions.specs.Placings.{HasNames};
ghost use Rattle.walk_definitions.specs.Words.{max_count};

use crate::chosen::Chosen;
use crate::follow::{fault, follow, refuse};
use crate::found::Found;
use crate::place::ListingPlace;
use crate::selecting::select_present;
use crate::walk_step::WalkStep;
use basis_deck::read_basis;
use card_reader::Cards;
use deck_fields::CardStop;
use job_decks::{Deck, take_deck};
use job_devices::NoMemory;
use listing_definitions::VerbFault;
use listing_readers::is_inserted;
use lp_model::Lp;
use mps_convert::problem_name;
use problem_file::Problem;
use run_cells::NameCell;
use run_machine::{Act, End, Machine, problem_on_file};
use std::alloc::Global;

// Whether the line of INSERT stands here, for the deck that is taken.
fn is_line_of(cards: &Cards, taken: Option<Deck>, rest: &[u8]) -> bool
    requires { IfSome taken (LiesWithin cards.now) }
    ensures { result ≡ is_line_of cards.now taken rest.now }
{
    match taken {
        Some(deck) => {
            let name = problem_name(cards, deck.first, deck.last, None);
            is_inserted(rest, name)
        }
        None => false,
    }
}

// Whether the deck that is taken has no fault, and the line of INSERT stands here for it. The deck's faults go by the limits that are there,
// and not by their values.
fn is_line_due(
    alloc: Global,
    problem: &Problem,
    lp: &Lp,
    cards: &Cards,
    taken: Option<Deck>,
    rest: &[u8],
) -> Result<bool, NoMemory>
    requires names { HasNames problem.now lp.now }
    requires within { IfSome taken (LiesWithin cards.now) }
    ensures { IfOk result (λ due. due ≡ is_line_due problem.now lp.now cards.now taken rest.now) }
{
    let Some(deck) = taken else {
        return Ok(false);
    };
    match read_basis(alloc, problem, lp, cards, deck.first, deck.last) {
        Ok(_basis) => Ok(is_line_of(cards, taken, rest)),
        Err(CardStop::Fault(_)) => Ok(false),
        Err(CardStop::NoMemory) => Err(NoMemory),
    }
}

// The line of INSERT is due here, and stands or doesn't: a stop comes first; where the line doesn't stand, the verdict that is pending
// comes, and else it is wrong.
fn install_due<'a>(place: &ListingPlace<'a>, stands: bool) -> Found<'a>
    ensures { IsInstallDue place.now stands result }
{
    let rest = place.cursor.left();
    if stands {
        return Found::Open(rest);
    }
    match place.open_here(true, true) {
        Some(found) => found,
        None => Found::Wrong(rest),
    }
}

// An operation of the selection is refused, where the line of INSERT is due or isn't: a stop comes first, then the line, and then the verdict
// that is pending.
fn install_refused<'a>(place: &ListingPlace<'a>, due: bool) -> Found<'a>
    ensures { IsInstallRefused place.now due result }
{
    if due {
        return Found::Open(place.cursor.left());
    }
    place.unchecked()
}

/// INSERT. It needs a setup, selects again by the cells as they stand, takes a deck, and reads the basis that the deck stands for. The
/// walk doesn't go past its report. Where an operation of the selection is refused, the deck is read by the linear program that was
/// selected last: with the same options it has its limits at the same places.
pub fn insert<'a>(
    alloc: Global,
    machine: &Machine<Chosen>,
    cards: &Cards,
    place: &mut ListingPlace<'a>,
    card: u32,
) -> Result<WalkStep<'a>, NoMemory>
    requires sound { IsSound cards.now machine.now }
    requires few { place.old.reports < max_count }
    ensures walks { (C : Checker) →
        IfOk result
        (Walks C program.Insert card cards.now machine.now machine.now place.old place.new) }
    ensures few { place.new.reports ≤ place.old.reports + 1 }
{
    let Some(chosen) = &machine.setup else {
        return fault(alloc, machine, place, VerbFault::NoSetup, card);
    };
    let problem = problem_on_file(&machine.file, &chosen.name);
    let wanted = machine.cells.name(NameCell::Xdata);
    let taken = take_deck(cards, machine.decks_from, wanted);
    let stands = is_line_of(cards, taken, place.cursor.left());
    let lp = match select_present(alloc, problem, &machine.cells, chosen.options) {
        Ok(lp) => lp,
        Err(refusal) => {
            let rest = place.cursor.left();
            let due = is_line_due(alloc, problem, &chosen.lp, cards, taken, rest)?;
            let found = install_refused(place, due);
            return refuse(alloc, machine, place, refusal, found, card);
        }
    };
    let Some(deck) = taken else {
        return fault(alloc, machine, place, VerbFault::DeckNotFound, card);
    };
    match read_basis(alloc, problem, &lp, cards, deck.first, deck.last) {
        Ok(_basis) => Ok(WalkStep::Finds(install_due(place, stands))),
        Err(CardStop::Fault(why)) => {
            follow(alloc, machine, place, &Act::Ends(End::Deck(why)), &[])
        }
        Err(CardStop::NoMemory) => Err(NoMemory),
    }
}
