// The section cards of a deck.
ghost use Rattle.std.specs.Prelude.{◌≡◌, Bool, Some, IfOk, OnOk, IfErr};
ghost use Rattle.card_definitions.specs.Words.{named};
ghost use Rattle.deck_definitions.specs.declared.Section.{Section as TheSection};
ghost use Rattle.deck_definitions.specs.Sections.{is_section, is_section_card, rank, section_word, section_words};
ghost use Rattle.deck_definitions.specs.Conversion.{section_card_fault};
ghost use Rattle.deck_fields.specs.Reported.{ReportsDeckFault};

use crate::keywords::{first_word, section_named};
use card_reader::CardStop;
use deck_definitions::{DeckFaultKind, Section};

/// Whether a card is a section card.
pub fn begins_section(card: &[u8]) -> bool
    ensures { result ≡ is_section_card card.now }
{
    match card.first() {
        Some(byte) => !(*byte == b' ' || *byte == b'*'),
        None => false,
    }
}

/// How far along a section stands.
pub fn rank_of(section: Section) -> u8
    ensures { result ≡ rank section }
{
    match section {
        Section::Header => 0,
        Section::Rows => 1,
        Section::Columns => 2,
        Section::Rhs => 3,
        Section::Ranges => 4,
        Section::Bounds => 5,
        Section::Endata => 6,
    }
}

/// Whether two sections are the same.
pub fn is_section(this: Section, that: Section) -> bool
    ensures { result ≡ is_section this that }
{
    this == that
}

/// The order in which the sections of a kind of decks come.
pub trait SectionOrder {
    /// Whether a section may come after another.
    ghost follows: { TheSection → TheSection → Bool };

    /// Whether a section may come after another.
    fn may_follow(before: Section, section: Section) -> bool
        ensures { result ≡ follows before section };
}

/// The section that a section card begins after another, in this order.
pub fn next_section<O: SectionOrder>(
    before: Option<Section>,
    card: &[u8],
) -> Result<Section, CardStop<DeckFaultKind>>
    ensures section { IfOk result (λ section. named section_words (section_word card.now) ≡
        Some section) }
    ensures no_fault { OnOk result (section_card_fault O.follows before card.now ≡ None) }
    ensures stop { IfErr result (ReportsDeckFault (section_card_fault O.follows before card.now)) }
{
    let next = section_named(first_word(card));
    let Some(before) = before else {
        return match next {
            Some(Section::Header) => Ok(Section::Header),
            _ => Err(CardStop::Fault(DeckFaultKind::SectionOrder)),
        };
    };
    let Some(section) = next else {
        return Err(CardStop::Fault(DeckFaultKind::UnknownSection));
    };
    if !O::may_follow(before, section) {
        return Err(CardStop::Fault(DeckFaultKind::SectionOrder));
    }
    Ok(section)
}
