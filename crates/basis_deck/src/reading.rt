// The reading of a basis deck.
ghost use Rattle.std.specs.Prelude.{◌≡◌, ◌≤◌, Ok, IfOk, IfErr, length};
ghost use Rattle.card_definitions.specs.Cards.{cards_between};
ghost use Rattle.lp_definitions.specs.Basis.{IsBasis};
ghost use Rattle.basis_deck_definitions.specs.Placings.{HasNames};
ghost use Rattle.basis_deck_definitions.specs.Reading.{basis_reading};
ghost use Rattle.basis_deck.specs.Reading.{Refuses};

use crate::draft::BasisDraft;
use card_reader::Cards;
use deck_fields::{CardStop, DeckFault, read_cards};
use lp_model::{Basis, Lp};
use problem_file::Problem;
use std::alloc::Global;

/// The basis for which the basis deck stands whose cards have the numbers from the first to the last, or the first fault of its
/// first faulty card. A deck without a faulty card that doesn't end with ENDATA has its fault on the last card.
pub fn read_basis(
    alloc: Global,
    problem: &Problem,
    lp: &Lp,
    cards: &Cards,
    first: u32,
    last: u32,
) -> Result<Basis, CardStop<DeckFault>>
    requires names { HasNames problem.now lp.now }
    requires from_one { 1 ≤ first }
    requires ordered { first ≤ last }
    requires within { last ≤ length cards.now }
    ensures basis { IfOk result (λ basis. basis_reading problem.now lp.now
        (cards_between first last cards.now) ≡ Ok basis) }
    ensures lawful { IfOk result (IsBasis lp.now) }
    ensures stop { IfErr result
        (Refuses problem.now lp.now (cards_between first last cards.now)) }
{
    let Ok(begun) = BasisDraft::new(alloc, problem, lp) else {
        return Err(CardStop::NoMemory);
    };
    let mut draft = begun;
    read_cards(&mut draft, cards, first, last)?;
    Ok(draft.into_basis())
}
