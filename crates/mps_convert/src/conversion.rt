// The conversion of a deck.
ghost use Rattle.std.specs.Prelude.{◌≡◌, ◌≤◌, ℕ, List, [], IfOk, IfErr, IfSome, IfNone, length, unwrap_or};
ghost use Rattle.card_definitions.specs.Cards.{live, cards_between};
ghost use Rattle.card_reader.specs.Card.{card_bytes};
ghost use Rattle.problem_definitions.specs.Numbering.{numbered};
ghost use Rattle.problem_definitions.specs.Valid.{IsName, IsProblem};
ghost use Rattle.deck_definitions.specs.Sections.{header_name};
ghost use Rattle.deck_definitions.specs.Conversion.{deck_name, conversion};
ghost use Rattle.mps_convert.specs.Conversion.{Refuses};

use crate::draft::DeckDraft;
use crate::problem_draft::ProblemDraft;
use card_reader::{Card, Cards};
use deck_fields::{CardStop, DeckFault, name_in, read_cards};
use name_table::Name;
use problem_file::Problem;
use std::alloc::Global;

// The first of these cards that isn't skipped.
fn first_live(cards: &Cards, first: u32, last: u32) -> Option<Card<'_>>
    requires from_one { 1 ≤ first }
    requires ordered { first ≤ last }
    requires within { last ≤ length cards.now }
    ensures name { IfSome result (λ card. deck_name (live (cards_between first last cards.now)) ≡
        header_name (card_bytes card)) }
    ensures none { IfNone result (live (cards_between first last cards.now) ≡ []) }
{
    let end = last.min(cards.count()) + 1;
    for number in first..end {
        let card = cards.card(number);
        if !card.is_skipped() {
            return Some(card);
        }
    }
    None
}

// The name that a deck gives itself: that on its first card, or none.
fn own_name(cards: &Cards, first: u32, last: u32) -> Name
    requires from_one { 1 ≤ first }
    requires ordered { first ≤ last }
    requires within { last ≤ length cards.now }
    ensures name { result ≡ deck_name (live (cards_between first last cards.now)) }
    ensures is_name { IsName result }
{
    match first_live(cards, first, last) {
        Some(card) => name_in(card.field(15, 22)),
        None => name_in(b""),
    }
}

/// The name of the problem of a deck: this one, or else the deck's own.
pub fn problem_name(cards: &Cards, first: u32, last: u32, name: Option<Name>) -> Name
    requires from_one { 1 ≤ first }
    requires ordered { first ≤ last }
    requires within { last ≤ length cards.now }
    ensures name { result ≡ unwrap_or name (deck_name (live (cards_between first last cards.now))) }
    ensures is_name { IsName result }
{
    match name {
        Some(name) => {
            let _ = name.bytes();
            name
        }
        None => own_name(cards, first, last),
    }
}

/// The problem of a deck that was read without a fault, under this name or else the deck's own.
pub fn problem_of<D: ProblemDraft>(
    draft: &D,
    cards: &Cards,
    first: u32,
    last: u32,
    name: Option<Name>,
) -> Result<Problem, CardStop<DeckFault>>
    requires from_one { 1 ≤ first }
    requires ordered { first ≤ last }
    requires within { last ≤ length cards.now }
    requires lawful { (own : List ℕ) → IsName own → IsProblem
        (numbered (D.problem_under own draft.now)) }
    ensures problem { IfOk result (λ problem. problem ≡ numbered (D.problem_under
        (unwrap_or name (deck_name (live (cards_between first last cards.now)))) draft.now)) }
    ensures stop { IfErr result (λ stop. stop ≡ CardStop.NoMemory) }
{
    let own = problem_name(cards, first, last, name);
    match draft.problem(own) {
        Ok(problem) => Ok(problem),
        Err(_) => Err(CardStop::NoMemory),
    }
}

/// Converts the deck whose cards have the numbers from the first to the last: the problem that it describes, under this name or
/// else its own, or the first fault of its first faulty card. A deck without a faulty card that doesn't end with ENDATA has its
/// fault on the last card. An `Err` leaves nothing behind.
pub fn convert(
    alloc: Global,
    cards: &Cards,
    first: u32,
    last: u32,
    name: Option<Name>,
) -> Result<Problem, CardStop<DeckFault>>
    requires from_one { 1 ≤ first }
    requires ordered { first ≤ last }
    requires within { last ≤ length cards.now }
    ensures problem { IfOk result (λ problem. conversion (cards_between first last cards.now) name ≡
        Ok problem) }
    ensures stop { IfErr result (Refuses (cards_between first last cards.now) name) }
{
    let mut draft = DeckDraft::new(alloc);
    read_cards(&mut draft, cards, first, last)?;
    problem_of(&draft, cards, first, last, name)
}
