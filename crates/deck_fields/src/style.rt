// The style of a deck, which its NAME card gives.
ghost use Rattle.std.specs.Prelude.{◌≡◌, false, unwrap_or, option_map};
ghost use Rattle.card_reader.specs.Card.{card_bytes};
ghost use Rattle.deck_definitions.specs.declared.Section.TheVariants.{Header};
ghost use Rattle.deck_definitions.specs.Sections.{is_section, section_begun};
ghost use Rattle.deck_definitions.specs.DataCards.{header_style, style_begun};

use crate::keywords::{first_word, is_word, section_named};
use crate::sections::{begins_section, is_section};
use card_reader::Card;
use deck_definitions::{Section, Style};

/// The style that a NAME card gives.
pub fn header_style(card: Card<'_>) -> Style
    ensures { result ≡ header_style (card_bytes card.entry) }
{
    if is_word(card.field(23, 80), b"  FREE") {
        Style::FreeFields
    } else {
        Style::FixedFields
    }
}

// Whether a card is a NAME card.
fn is_name_card(card: &[u8]) -> bool
    ensures { result ≡ unwrap_or (option_map (is_section Header) (section_begun card.now)) false }
{
    if !begins_section(card) {
        return false;
    }
    match section_named(first_word(card)) {
        Some(section) => is_section(Section::Header, section),
        None => false,
    }
}

/// The style that a card gives, if it is a NAME card.
pub fn style_begun(card: Card<'_>) -> Option<Style>
    ensures { result ≡ style_begun (card_bytes card.entry) }
{
    if is_name_card(card.bytes()) {
        Some(header_style(card))
    } else {
        None
    }
}
