// The cards of a deck, one after another.
ghost use Rattle.std.specs.Prelude.{◌≡◌, ◌≤◌, ◌∷◌, ◌++◌, [], None, ℕ, List, Option, OnOk, IfErr, length};
ghost use Rattle.card_definitions.specs.Cards.{Card as Numbered, live, cards_between};
ghost use Rattle.card_reader.specs.Card.{card_bytes};
ghost use Rattle.deck_definitions.specs.declared.DeckFaultKind.{DeckFaultKind as Kind};
ghost use Rattle.deck_definitions.specs.declared.Section.TheVariants.{Endata};
ghost use Rattle.deck_definitions.specs.Sections.{section_after, is_section_after};
ghost use Rattle.deck_definitions.specs.Conversion.{fault_by, first_faulty};
ghost use Rattle.deck_definitions.specs.Readings.{ArePrintableCards};
ghost use Rattle.deck_fields.specs.Reported.{ReportsDeckFault};
ghost use Rattle.deck_fields.specs.Stops.{Stops, StopsAt};

use crate::sections::is_section;
use card_reader::{Card, CardStop, Cards};
use deck_definitions::{DeckFault, DeckFaultKind, Section};

/// What is made of the cards of a deck, one after another.
pub trait Draft {
    /// The fault of a card after others, in a deck that was begun with this draft.
    ghost test: { Self → List Numbered → List ℕ → Option Kind };

    /// Begun with the first draft, the second is made of these cards.
    ghost is_made_of: { Self → Self → List Numbered → Type 0 };

    /// The section that goes on.
    fn section(&self) -> Option<Section>
        ensures { (start : Self) (seen : List Numbered) → is_made_of start self.now seen → result ≡
            section_after seen };

    /// Takes one more card that isn't skipped. After an `Err` the draft is of no use.
    fn take(&mut self, card: Card<'_>) -> Result<(), CardStop<DeckFaultKind>>
        ensures no_fault { (start : Self) (seen : List Numbered) → is_made_of start self.old seen →
            OnOk result (test start seen (card_bytes card.entry) ≡ None) }
        ensures made { (start : Self) (seen : List Numbered) (number : ℕ) →
            is_made_of start self.old seen → OnOk result (is_made_of start self.new
            (seen ++ record { number = number; bytes = card_bytes card.entry } ∷ [])) }
        ensures stop { (start : Self) (seen : List Numbered) → is_made_of start self.old seen →
            IfErr result (ReportsDeckFault (test start seen (card_bytes card.entry))) };
}

// Whether the section of the ENDATA card goes on.
fn is_ended<D: Draft>(draft: &D) -> bool
    ensures { (start : D) (seen : List Numbered) → D.is_made_of start draft.now seen → result ≡
        is_section_after Endata seen }
{
    match draft.section() {
        Some(section) => is_section(Section::Endata, section),
        None => false,
    }
}

// Reads one more card, which may be skipped.
fn read_card<D: Draft>(
    draft: &mut D,
    number: u32,
    card: Card<'_>,
) -> Result<(), CardStop<DeckFault>>
    ensures no_fault { (start : D) (seen : List Numbered) → D.is_made_of start draft.old seen →
        OnOk result (first_faulty (D.test start) seen
        (live (record { number = number; bytes = card_bytes card.entry } ∷ [])) ≡ None) }
    ensures made { (start : D) (seen : List Numbered) → D.is_made_of start draft.old seen →
        OnOk result (D.is_made_of start draft.new
        (seen ++ live (record { number = number; bytes = card_bytes card.entry } ∷ []))) }
    ensures stop { (start : D) (seen : List Numbered) → D.is_made_of start draft.old seen →
        IfErr result (StopsAt (D.test start) seen
        (record { number = number; bytes = card_bytes card.entry })) }
{
    if card.is_skipped() {
        return Ok(());
    }
    match draft.take(card) {
        Ok(()) => Ok(()),
        Err(CardStop::Fault(kind)) => Err(CardStop::Fault(DeckFault { card: number, kind })),
        Err(CardStop::NoMemory) => Err(CardStop::NoMemory),
    }
}

/// Reads the cards from the first to the last of these numbers, which are a deck: the draft is made of those that aren't
/// skipped, or the fault is that of the deck by the draft's test.
pub fn read_cards<D: Draft>(
    draft: &mut D,
    cards: &Cards,
    first: u32,
    last: u32,
) -> Result<(), CardStop<DeckFault>>
    requires start { D.is_made_of draft.old draft.old [] }
    requires from_one { 1 ≤ first }
    requires ordered { first ≤ last }
    requires within { last ≤ length cards.now }
    ensures made { OnOk result (D.is_made_of draft.old draft.new
        (live (cards_between first last cards.now))) }
    ensures no_fault { OnOk result (fault_by (D.test draft.old)
        (cards_between first last cards.now) ≡ None) }
    ensures printable { OnOk result (ArePrintableCards (cards_between first last cards.now)) }
    ensures stop { IfErr result (Stops (D.test draft.old) (cards_between first last cards.now)) }
{
    let end = last.min(cards.count()) + 1;
    for number in first..end {
        read_card(draft, number, cards.card(number))?;
    }
    if !is_ended(draft) {
        let kind = DeckFaultKind::NoEndata;
        return Err(CardStop::Fault(DeckFault { card: last, kind }));
    }
    Ok(())
}
