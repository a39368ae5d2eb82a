// The cards with which a deck begins and ends.
ghost use Rattle.std.specs.Prelude.{◌≡◌, ◌∷◌, ◌&&◌, ℕ, List, bytes_eq};
ghost use Rattle.card_definitions.specs.Cards.{Card as Numbered};
ghost use Rattle.card_reader.specs.Card.{card_bytes};
ghost use Rattle.deck_definitions.specs.Decks.{is_wanted};
ghost use Rattle.deck_definitions.specs.Sections.{begins, header_name, section_word};
ghost use Rattle.deck_definitions.specs.declared.Section.TheVariants.{Endata, Header};

use card_reader::Card;
use deck_fields::first_word;
use name_table::Name;

// Whether a card has this word.
fn has_word(card: Card<'_>, word: &[u8]) -> bool
    ensures { result ≡ bytes_eq word.now (section_word (card_bytes card.entry)) }
{
    *word == *first_word(card.bytes())
}

// Whether a card is an ENDATA card.
pub fn ends_deck(card: Card<'_>) -> bool
    ensures { (number : ℕ) → result ≡ begins Endata
        (record { number = number; bytes = card_bytes card.entry }) }
{
    has_word(card, b"ENDATA")
}

// Whether a card is a NAME card.
fn is_header(card: Card<'_>) -> bool
    ensures { (number : ℕ) → result ≡ begins Header
        (record { number = number; bytes = card_bytes card.entry }) }
{
    has_word(card, b"NAME")
}

// Whether the name on a NAME card is this one.
fn is_named(card: Card<'_>, name: &Name) -> bool
    ensures { result ≡ bytes_eq name.now (header_name (card_bytes card.entry)) }
{
    *name.bytes() == *card.field(15, 22)
}

// Whether a deck that begins with this card may be taken.
pub fn is_wanted(first: Card<'_>, wanted: &Option<Name>) -> bool
    ensures { (number : ℕ) (cards : List Numbered) → result ≡ is_wanted wanted.now
        (record { number = number; bytes = card_bytes first.entry } ∷ cards) }
{
    match wanted {
        Some(name) => is_header(first) && is_named(first, name),
        None => true,
    }
}
