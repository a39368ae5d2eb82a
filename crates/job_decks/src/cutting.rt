// The decks of a job, one after another.
ghost use Rattle.std.specs.Prelude.{◌≡◌, ◌≤◌, ◌+◌, ◌-◌, ◌∷◌, [], List, ℕ, drop, length, min, option_map, Some, IfSome, MatchOption};
ghost use Rattle.std.specs.List.{position_or_len};
ghost use Rattle.card_definitions.specs.Cards.{cards_between, numbered_cards};
ghost use Rattle.deck_definitions.specs.Decks.{decks_of, deck_taken};
ghost use Rattle.deck_definitions.specs.Sections.{begins};
ghost use Rattle.deck_definitions.specs.declared.Section.TheVariants.{Endata};
ghost use Rattle.job_decks.specs.Positions.{cards_from, IsLiveAt};
ghost use Rattle.card_definitions.specs.declared.TheConstants.{MAX_JOB_CARDS};

use crate::deck::Deck;
use crate::headings::{ends_deck, is_wanted};
use card_reader::Cards;
use name_table::Name;

// The first card from this number on that isn't skipped.
fn first_live(cards: &Cards, from: u32) -> Option<u32>
    requires from_one { 1 ≤ from }
    requires within { from ≤ length cards.now + 1 }
    ensures decks { MatchOption result (decks_of (cards_from from cards.now) ≡ [])
        (λ first. decks_of (cards_from from cards.now) ≡ decks_of (cards_from first cards.now)) }
    ensures live { IfSome result (λ first. IsLiveAt first cards.now) }
    ensures later { IfSome result (λ first. from ≤ first) }
    ensures within { IfSome result (λ first. first ≤ length cards.now) }
{
    for number in from..cards.count() + 1 {
        if !cards.card(number).is_skipped() {
            return Some(number);
        }
    }
    None
}

// The first ENDATA card from this card on, or the last card.
fn deck_end(cards: &Cards, first: u32) -> u32
    requires from_one { 1 ≤ first }
    requires within { first ≤ length cards.now }
    ensures end { result ≡ min (first + position_or_len (begins Endata)
        (cards_from first cards.now)) (length cards.now) }
    ensures few { result ≤ MAX_JOB_CARDS }
{
    for number in first..cards.count() {
        if ends_deck(cards.card(number)) {
            return number;
        }
    }
    cards.count()
}

// The first deck of the cards from this number on.
fn next_deck(cards: &Cards, from: u32) -> Option<Deck>
    requires from_one { 1 ≤ from }
    requires within { from ≤ length cards.now + 1 }
    ensures deck { MatchOption result (decks_of (cards_from from cards.now) ≡ [])
        (λ deck. decks_of (cards_from from cards.now) ≡ cards_between deck.first deck.last cards.now
        ∷ decks_of (drop deck.last (numbered_cards cards.now))) }
    ensures live { IfSome result (λ deck. IsLiveAt deck.first cards.now) }
    ensures within { IfSome result (λ deck. (from ≤ deck.first) × (deck.first ≤ deck.last) ×
        (deck.last ≤ length cards.now)) }
    ensures few { IfSome result (λ deck. deck.last ≤ MAX_JOB_CARDS) }
{
    let first = first_live(cards, from)?;
    let last = deck_end(cards, first);
    Some(Deck { first, last })
}

/// The deck to take of the cards from this number on: the first with the name asked for, and the first of all where no name is
/// asked for. A deck begins at the first card not yet taken that isn't skipped, ends with the first ENDATA card from there or
/// with the last card, and has the name on its first card, if that is a NAME card. The decks left are those of the cards after it.
pub fn take_deck(cards: &Cards, from: u32, wanted: Option<Name>) -> Option<Deck>
    requires from_one { 1 ≤ from }
    requires within { from ≤ length cards.now + 1 }
    ensures taken { deck_taken wanted (decks_of (drop (from - 1) (numbered_cards cards.now))) ≡
        option_map (λ deck. (
          cards_between deck.first deck.last cards.now,
          decks_of
              (drop deck.last (numbered_cards cards.now)),
        )) result }
    ensures within { IfSome result (λ deck. (from ≤ deck.first) × (deck.first ≤ deck.last) ×
        (deck.last ≤ length cards.now)) }
{
    let mut next = from;
    while let Some(deck) = next_deck(cards, next) {
        if is_wanted(cards.card(deck.first), &wanted) {
            return Some(deck);
        }
        next = deck.last + 1;
    }
    None
}
