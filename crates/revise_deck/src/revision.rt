// The revision of a problem.
ghost use Rattle.std.specs.Prelude.{◌≡◌, ◌≤◌, IfOk, IfErr, length};
ghost use Rattle.card_definitions.specs.Cards.{cards_between};
ghost use Rattle.revise_definitions.specs.Revision.{revision};
ghost use Rattle.revise_deck.specs.Revision.{Refuses};

use crate::draft::ReviseDraft;
use crate::naming::named;
use card_reader::Cards;
use deck_fields::{CardStop, DeckFault, read_cards};
use mps_convert::problem_of;
use name_table::Name;
use problem_file::Problem;
use std::alloc::Global;

/// Revises a problem by the REVISE deck whose cards have the numbers from the first to the last: the problem that the deck makes
/// of the old one, under this name or else the deck's own, or the first fault of its first faulty card. A deck without a faulty
/// card that doesn't end with ENDATA has its fault on the last card. The old problem stays as it was, and an `Err` leaves nothing
/// behind.
pub fn revise(
    alloc: Global,
    old: &Problem,
    cards: &Cards,
    first: u32,
    last: u32,
    name: Option<Name>,
) -> Result<Problem, CardStop<DeckFault>>
    requires from_one { 1 ≤ first }
    requires ordered { first ≤ last }
    requires within { last ≤ length cards.now }
    ensures problem { IfOk result (λ problem. revision old.now (cards_between first last cards.now)
        name ≡ Ok problem) }
    ensures stop { IfErr result (Refuses old.now (cards_between first last cards.now) name) }
{
    let _ = old.name();
    let Ok(problem) = named(alloc, old) else {
        return Err(CardStop::NoMemory);
    };
    let mut draft = ReviseDraft::new(alloc, problem);
    read_cards(&mut draft, cards, first, last)?;
    problem_of(&draft, cards, first, last, name)
}
