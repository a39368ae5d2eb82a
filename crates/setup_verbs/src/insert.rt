// INSERT.
ghost use Rattle.std.specs.Prelude.{◌≡◌, ◌+◌, ◌≤◌, ◌-◌, length, drop};
ghost use Rattle.card_definitions.specs.Cards.{numbered_cards};
ghost use Rattle.lp_definitions.specs.LinearProgram.{size};
ghost use Rattle.lp_definitions.specs.Waypoints.{waypoint};
ghost use Rattle.basis_deck_definitions.specs.Placings.{HasNames};
ghost use Rattle.basis_deck_definitions.specs.Writing.{basic_columns};
ghost use Rattle.control_definitions.specs.Program as program;
ghost use Rattle.fitting_answers.specs.Real.{linear_programming_of_128_bits};
ghost use Rattle.setup_verbs.specs.Standing.{IsReady, IsSound};
ghost use Rattle.setup_verbs.specs.Statements.{Executes};
ghost use Rattle.problem_file.specs.Filed.{filed_under};
ghost use Rattle.listing_definitions.specs.Ending.{SingularStop};
ghost use Rattle.lp_definitions.specs.Basis.{IsBasis};
ghost use Rattle.run_machine.specs.Ends.{end_view};
ghost use Rattle.run_machine.specs.Singular.{IsSheetOf, lines_view};
ghost use Rattle.setup_verbs.specs.Inserting.{IsGiven, IsFound, IsInstalledFor, IsOverflowEnd, refused_found};

use crate::kept::Setup;
use crate::overflow::place_at;
use basis_deck::{InstallStop, install, read_basis};
use basis_values::stands_basic;
use card_reader::Cards;
use control_definitions::NameCell;
use deck_fields::CardStop;
use job_decks::{Deck, take_deck};
use job_devices::Sink;
use listing_definitions::VerbFault;
use lp_model::{Basis, Direction, Engine, Evidence, Lp, NoMemory};
use lp_setup::Choice;
use mps_convert::problem_name;
use name_table::Name;
use problem_file::{Problem, ProblemFile};
use report_text::{Report, text_of};
use run_machine::{
    Act, End, Halt, Machine, Refusal, SingularBasis, present_choice, problem_on_file,
    select_present,
};
use std::alloc::Global;
use std::mem::replace;

// Which deck is taken of the cards from this number on: the first of this name, or the first of all.
#[derive(Clone, Copy)]
struct WantedDeck {
    from: u32,
    name: Option<Name>,
}

// The status list of a basis, and the deck that stands for it.
#[derive(Drop)]
struct DeckBasis {
    basis: Basis,
    deck: Deck,
}

// What the deck that is taken gives.
#[derive(Drop)]
enum Given {
    // A basis.
    Basis(DeckBasis),
    // The end of the run.
    Ends(End),
}

// What INSERT finds, before the machine changes.
#[derive(Drop)]
enum Found<S> {
    // The setup with the basis of a deck, the name of the deck, the number of basic columns, and the number of the next card.
    Inserted {
        setup: S,
        deck: Name,
        basic: u32,
        next: u32,
    },
    // The basis is singular, of the problem of this name.
    Singular {
        name: Name,
        lp: Lp,
        dependency: Direction,
    },
    // The end of the run.
    Ends(End),
}

// Takes the deck that is wanted, and reads it.
fn take_basis(
    alloc: Global,
    problem: &Problem,
    lp: &Lp,
    cards: &Cards,
    wanted: WantedDeck,
    card: u32,
) -> Result<Given, Halt>
    requires names { HasNames problem.now lp.now }
    requires from_one { 1 ≤ wanted.from }
    requires within { wanted.from ≤ length cards.now + 1 }
    ensures { IsGiven card problem.now lp.now wanted.name
        (drop (wanted.from - 1) (numbered_cards cards.now)) cards.now result }
{
    let Some(deck) = take_deck(cards, wanted.from, wanted.name) else {
        return Ok(Given::Ends(End::Verb {
            fault: VerbFault::DeckNotFound,
            card,
        }));
    };
    match read_basis(alloc, problem, lp, cards, deck.first, deck.last) {
        Ok(basis) => Ok(Given::Basis(DeckBasis { basis, deck })),
        Err(CardStop::Fault(fault)) => Ok(Given::Ends(End::Deck(fault))),
        Err(CardStop::NoMemory) => Err(Halt::NoMemory),
    }
}

// The number of basic columns.
fn basic_count(lp: &Lp, basis: &Basis) -> u32
    requires { length basis.now ≡ size lp.now.matrix }
    ensures { result ≡ length (basic_columns lp.now basis.now) }
{
    let _size = lp.number_of_variables();
    let mut count = 0;
    for c in 0..lp.cols {
        if !stands_basic(basis, lp.rows + c + 1) {
            continue;
        }
        count += 1;
    }
    count
}

// An exchange on the way to the basis is refused: the run ends with the present basis, and the set at which it was to be made.
fn overflow_end<E: Engine>(
    alloc: Global,
    lp: &Lp,
    present: &Basis,
    engine: &E,
    evidence: Evidence,
    card: u32,
) -> Result<End, NoMemory>
    requires matrix { (E.state engine.now).matrix ≡ lp.now.matrix }
    requires way { evidence.way ≤ length (E.state engine.now).waypoints }
    ensures { IsOverflowEnd card present.now (waypoint (E.state engine.now).basics
        (E.state engine.now).waypoints evidence.way) evidence result }
{
    let place = place_at(alloc, lp, present, engine, evidence.way)?;
    Ok(End::Overflow {
        evidence,
        place: Some(place),
        card,
    })
}

// The run ends at a singular basis. The end owns all that is printed of it.
fn singular_end(file: ProblemFile, name: Name, lp: Lp, dependency: Direction, card: u32) -> End
    requires on_file { IsSheetOf (filed_under name file) lp }
    requires full { length dependency ≡ size lp.matrix }
    ensures { end_view result ≡ SingularStop (record {
      card = card;
      lines = lines_view (filed_under name file) lp dependency;
    }) }
{
    End::Singular {
        card,
        basis: SingularBasis {
            file,
            name,
            lp,
            dependency,
        },
    }
}

// The statement comes to nothing with a setup.
fn ended<E: Engine>(refusal: Refusal, card: u32) -> Result<Found<Setup<E>>, Halt>
    ensures { result ≡ refused_found card refusal }
{
    Ok(Found::Ends(refusal.end_at(card)?))
}

// What was selected of a problem, and by which choice.
#[derive(Drop)]
struct Selection {
    choice: Choice,
    lp: Lp,
}

// Makes the rates of the basis that a deck gives, for a setup of whose problem this was selected.
fn installed<E: Engine>(
    alloc: Global,
    setup: &Setup<E>,
    selection: Selection,
    given: DeckBasis,
    cards: &Cards,
    card: u32,
) -> Result<Found<Setup<E>>, Halt>
    requires basis { IsBasis selection.lp given.basis }
    requires from_one { 1 ≤ given.deck.first }
    requires ordered { given.deck.first ≤ given.deck.last }
    requires within { given.deck.last ≤ length cards.now }
    ensures { IsInstalledFor card setup.now selection.choice selection.lp given.basis
        given.deck.first given.deck.last cards.now result }
{
    let Selection { choice, lp } = selection;
    let DeckBasis { basis, deck } = given;
    match install(alloc, &lp, &basis) {
        Ok(engine) => {
            let name = problem_name(cards, deck.first, deck.last, None);
            let basic = basic_count(&lp, &basis);
            let _count = cards.count();
            let setup = Setup {
                name: setup.name,
                options: setup.options,
                objective: choice.objective,
                rhs: choice.rhs,
                lp,
                basis,
                engine,
            };
            Ok(Found::Inserted {
                setup,
                deck: name,
                basic,
                next: deck.last + 1,
            })
        }
        Err(InstallStop::Singular(dependency)) => Ok(Found::Singular {
            name: setup.name,
            lp,
            dependency,
        }),
        Err(InstallStop::Overflow(evidence, engine)) => {
            match overflow_end::<E>(alloc, &lp, &setup.basis, &engine, evidence, card) {
                Ok(end) => Ok(Found::Ends(end)),
                Err(NoMemory) => Err(Halt::NoMemory),
            }
        }
        Err(InstallStop::NoMemory) => Err(Halt::NoMemory),
    }
}

// What INSERT finds with the setup of a machine.
fn find_basis<E: Engine>(
    alloc: Global,
    machine: &Machine<Setup<E>>,
    cards: &Cards,
    card: u32,
) -> Result<Found<Setup<E>>, Halt>
    requires { IsSound cards.now machine.now }
    ensures { IsFound card cards.now machine.now result }
{
    let Some(setup) = &machine.setup else {
        return ended(Refusal::Fault(VerbFault::NoSetup), card);
    };
    let problem = problem_on_file(&machine.file, &setup.name);
    let lp = match select_present(alloc, problem, &machine.cells, setup.options) {
        Ok(lp) => lp,
        Err(refusal) => return ended(refusal, card),
    };
    let name = machine.cells.name(NameCell::Xdata);
    let wanted = WantedDeck {
        from: machine.decks_from,
        name,
    };
    let given = take_basis(alloc, problem, &lp, cards, wanted, card)?;
    match given {
        Given::Basis(basis) => {
            let choice = present_choice(&machine.cells, setup.options);
            let selection = Selection { choice, lp };
            installed(alloc, setup, selection, basis, cards, card)
        }
        Given::Ends(end) => Ok(Found::Ends(end)),
    }
}

/// INSERT: selects by the cells as they stand, takes the first deck of the name moved to XDATA, or the first of all, reads the basis that
/// it stands for, and makes its rates. It becomes the present basis, with which the path in hand begins anew, and the mark is cleared; the
/// deck's name and the number of basic columns are printed.
///
/// The statement is refused where there is no setup, where the cells select nothing, and where there is no such deck. A fault of the
/// deck, a singular basis and a refused operation end the run. Where there is no memory, nothing is printed.
pub fn insert_basis<E: Engine, P: Sink>(
    alloc: Global,
    machine: &mut Machine<Setup<E>>,
    cards: &Cards,
    print: &mut P,
    card: u32,
) -> Result<Act, Halt>
    requires { IsSound cards.now machine.old }
    ensures acts { Executes linear_programming_of_128_bits program.Insert card (P.taken print.old)
        (P.taken print.new) cards.now machine.old machine.new result }
    ensures sound { IsSound cards.now machine.new }
{
    let found = find_basis(alloc, machine, cards, card)?;
    match found {
        Found::Ends(end) => Ok(Act::Ends(end)),
        Found::Singular {
            name,
            lp,
            dependency,
        } => {
            machine.setup = None;
            let file = replace(&mut machine.file, ProblemFile::new(alloc));
            Ok(Act::Ends(singular_end(file, name, lp, dependency, card)))
        }
        Found::Inserted {
            setup,
            deck,
            basic,
            next,
        } => {
            machine.setup = Some(setup);
            machine.decks_from = next;
            machine.mark = None;
            text_of(&Report::Inserted { name: deck, basic }, print)?;
            Ok(Act::Next)
        }
    }
}
