// Data cards read from cards.
ghost use Rattle.std.specs.Prelude.{◌≡◌, None, Some, IfOk, OnOk, IfErr, option_map};
ghost use Rattle.std.specs.Option.{option_to_list};
ghost use Rattle.card_definitions.specs.Fields.{Fixed, reading_of};
ghost use Rattle.card_reader.specs.Card.{card_bytes};
ghost use Rattle.problem_definitions.specs.Valid.{IsName};
ghost use Rattle.deck_definitions.specs.declared.Style.TheVariants.{FreeFields};
ghost use Rattle.deck_definitions.specs.Conversion.{gaps_fault, form_fault};
ghost use Rattle.deck_definitions.specs.DataCards.{form_on, is_card_of, pair_if};
ghost use Rattle.deck_definitions.specs.Readings.{IsReading};
ghost use Rattle.deck_fields.specs.Readings.{fields_view};
ghost use Rattle.deck_fields.specs.WordsViewed.{IsColumn};
ghost use Rattle.deck_fields.specs.Views.{viewed, pair_view};

use crate::card_fields::fields;
use crate::data_card::{DataCard, PairText};
use crate::free_card::free_fields;
use crate::keywords::{combination_word, is_blank, is_word};
use crate::texts::Fields;
use card_reader::Card;
use deck_definitions::{DeckFaultKind, Section, Style};
use name_table::Name;
use problem_definitions::RowKind;

/// The name in a field that holds one.
pub fn name_in(field: &[u8]) -> Name
    requires { IsName field.now }
    ensures { result ≡ field.now }
{
    match Name::of(field) {
        Some(name) => name,
        None => unreachable!(),
    }
}

// The data card with these fields.
fn card_with<'a>(f: Fields<'a>) -> DataCard<'a>
    requires reading { IsReading (fields_view f) }
    requires column1 { IsColumn f.value1_column }
    requires column2 { IsColumn f.value2_column }
    ensures { viewed result ≡ fields_view f.entry }
{
    DataCard {
        kind: f.kind,
        name1: name_in(f.name1),
        name2: name_in(f.name2),
        value1: f.value1,
        name3: name_in(f.name3),
        value2: f.value2,
        value1_column: f.value1_column,
        value2_column: f.value2_column,
    }
}

/// Reads a data card whose fields stand at fixed columns.
pub fn read_fixed_card<'a>(card: Card<'a>) -> Result<DataCard<'a>, DeckFaultKind>
    ensures reading { IfOk result (λ d. viewed d ≡ reading_of Fixed (card_bytes card.entry)) }
    ensures no_fault { OnOk result (gaps_fault (card_bytes card.entry) ≡ None) }
    ensures fault { IfErr result (λ kind. gaps_fault (card_bytes card.entry) ≡ Some kind) }
{
    match fields(card) {
        Some(f) => Ok(card_with(f)),
        None => Err(DeckFaultKind::ExtraField),
    }
}

/// Reads a data card of this section in a deck of this style, where it may name what is to be deleted.
pub fn read_data_card<'a>(
    card: Card<'a>,
    style: Style,
    section: Section,
    deletes: bool,
) -> Result<DataCard<'a>, DeckFaultKind>
    ensures reading { IfOk result (λ d. viewed d ≡ reading_of
        (form_on style section deletes (card_bytes card.entry)) (card_bytes card.entry)) }
    ensures no_fault { OnOk result
        (form_fault style section deletes (card_bytes card.entry) ≡ None) }
    ensures fault { IfErr result
        (λ kind. form_fault style section deletes (card_bytes card.entry) ≡ Some kind) }
{
    match style {
        Style::FixedFields => read_fixed_card(card),
        Style::FreeFields => {
            let f = free_fields(card, section, deletes)?;
            Ok(card_with(f))
        }
    }
}

/// Whether a card has the type and the name of the combination of this kind and name.
pub fn is_card_of(kind: RowKind, name: &Name, card: &DataCard<'_>) -> bool
    ensures { result ≡ is_card_of kind name.now (viewed card.now) }
{
    is_word(combination_word(kind), card.kind) && *name == card.name1
}

// The pair in fields 3 and 4.
pub fn first_pair<'a>(card: &DataCard<'a>) -> PairText<'a>
    ensures { pair_view result ≡ record {
      row = (viewed card.now).name2;
      value =
          (viewed card.now).value1;
      column = (viewed card.now).value1_column;
    } }
{
    PairText {
        row: card.name2,
        value: card.value1,
        column: card.value1_column,
    }
}

// The pair in fields 3 and 4, where one of these isn't blank: a part of a combination.
pub fn first_part<'a>(card: &DataCard<'a>) -> Option<PairText<'a>>
    ensures { option_to_list (option_map pair_view result) ≡ pair_if (viewed card.now).name2
        (viewed card.now).value1 (viewed card.now).value1_column }
{
    if is_blank(card.name2.bytes()) && is_blank(card.value1) {
        return None;
    }
    Some(first_pair(card))
}

// The pair in fields 5 and 6, where one of these isn't blank.
pub fn second_pair<'a>(card: &DataCard<'a>) -> Option<PairText<'a>>
    ensures { option_to_list (option_map pair_view result) ≡ pair_if (viewed card.now).name3
        (viewed card.now).value2 (viewed card.now).value2_column }
{
    if is_blank(card.name3.bytes()) && is_blank(card.value2) {
        return None;
    }
    Some(PairText {
        row: card.name3,
        value: card.value2,
        column: card.value2_column,
    })
}
