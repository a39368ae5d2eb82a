// The fields of the data cards of free decks.
ghost use Rattle.std.specs.Prelude.{◌≡◌, ◌∷◌, [], None, Some, if◌then◌else◌, IfOk, OnOk, IfErr};
ghost use Rattle.std.specs.List.{list_any};
ghost use Rattle.card_definitions.specs.Fields.{reading_of};
ghost use Rattle.card_reader.specs.Card.{card_bytes};
ghost use Rattle.deck_definitions.specs.declared.DeckFaultKind.TheVariants.{LongName, LongNumber};
ghost use Rattle.deck_definitions.specs.declared.Style.TheVariants.{FreeFields};
ghost use Rattle.deck_definitions.specs.Conversion.{type_fault, is_longer, form_fault};
ghost use Rattle.deck_definitions.specs.DataCards.{form_on};
ghost use Rattle.deck_fields.specs.Readings.{ShowsFields};
ghost use Rattle.deck_fields.specs.WordsViewed.{IsColumn};

use crate::card_words::{free_words, read_words, word_text};
use crate::field_lists::fields_on;
use crate::keywords::{bound_kind, is_row_type};
use crate::texts::Fields;
use card_reader::Card;
use deck_definitions::{DeckFaultKind, Section};

// The longest name and the longest text of a number.
const NAME: usize = 8;

const NUMBER: usize = 12;

// The fault of a card's first word, where it tells a type.
fn type_fault(section: Section, word: &[u8]) -> Option<DeckFaultKind>
    ensures { result ≡ type_fault section word.now }
{
    match section {
        Section::Rows if !is_row_type(word) => Some(DeckFaultKind::BadRowType),
        Section::Bounds if bound_kind(word).is_none() => Some(DeckFaultKind::BadBoundType),
        _ => None,
    }
}

// The same, where a card that names what is to be deleted has no type.
fn first_word_fault(section: Section, deletes: bool, word: &[u8]) -> Option<DeckFaultKind>
    ensures { result ≡ (if deletes then None else type_fault section word.now) }
{
    if deletes {
        None
    } else {
        type_fault(section, word)
    }
}

// Whether one of three names is too long.
fn has_long_name(f: &Fields<'_>) -> bool
    ensures { result ≡
        list_any (is_longer 8) (f.now.name1.now ∷ f.now.name2.now ∷ f.now.name3.now ∷ []) }
{
    f.name1.len() > NAME || f.name2.len() > NAME || f.name3.len() > NAME
}

// Whether one of two numbers is too long.
fn has_long_number(f: &Fields<'_>) -> bool
    ensures { result ≡ list_any (is_longer 12) (f.now.value1.now ∷ f.now.value2.now ∷ []) }
{
    f.value1.len() > NUMBER || f.value2.len() > NUMBER
}

/// The fields of a data card of this section in a free deck, where it may name what is to be deleted. Nothing is copied.
pub fn free_fields<'a>(
    card: Card<'a>,
    section: Section,
    deletes: bool,
) -> Result<Fields<'a>, DeckFaultKind>
    ensures reading { IfOk result (λ f. ShowsFields f (reading_of
        (form_on FreeFields section deletes (card_bytes card.entry)) (card_bytes card.entry))) }
    ensures column1 { IfOk result (λ f. IsColumn f.value1_column) }
    ensures column2 { IfOk result (λ f. IsColumn f.value2_column) }
    ensures no_fault { OnOk result
        (form_fault FreeFields section deletes (card_bytes card.entry) ≡ None) }
    ensures fault { IfErr result
        (λ kind. form_fault FreeFields section deletes (card_bytes card.entry) ≡ Some kind) }
{
    let found = free_words(card);
    let first = word_text(&found, 0);
    if let Some(kind) = first_word_fault(section, deletes, first) {
        return Err(kind);
    }
    let Some(list) = fields_on(section, deletes, first, found.count) else {
        return Err(DeckFaultKind::WordCount);
    };
    let fields = read_words(&found, list);
    if has_long_name(&fields) {
        return Err(DeckFaultKind::LongName);
    }
    if has_long_number(&fields) {
        return Err(DeckFaultKind::LongNumber);
    }
    Ok(fields)
}
