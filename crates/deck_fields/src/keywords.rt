// The words that decks know.
ghost use Rattle.std.specs.Prelude.{◌≡◌, ◌≤◌, false, length, bytes_eq, unwrap_or, option_map, is_some};
ghost use Rattle.problem_definitions.specs.Kinds.{takes_value};
ghost use Rattle.card_definitions.specs.Words.{is_empty, named};
ghost use Rattle.deck_definitions.specs.DataCards.{row_kinds, combination_kinds, combination_text, is_row_type, bound_kinds};
ghost use Rattle.deck_definitions.specs.Sections.{section_word, section_words};
ghost use Rattle.deck_definitions.specs.Written.{row_kind_text, bound_kind_text};

use crate::blanks::first_blank;
use deck_definitions::Section;
use problem_definitions::{BoundKind, RowKind};

// Whether two texts are equal.
pub fn is_word(word: &[u8], text: &[u8]) -> bool
    ensures { result ≡ bytes_eq word.now text.now }
{
    *word == *text
}

// Whether a text has no byte.
pub fn is_blank(text: &[u8]) -> bool
    ensures { result ≡ is_empty text.now }
{
    text.first().is_none()
}

/// The word of a section card: it goes from column 1 to the first blank.
pub fn first_word(card: &[u8]) -> &[u8]
    ensures { result.now ≡ section_word card.now }
{
    &card[..first_blank(card)]
}

// The type of a plain row that a word names.
pub fn row_kind(word: &[u8]) -> Option<RowKind>
    ensures { result ≡ named row_kinds word.now }
{
    match word {
        b"N" => Some(RowKind::N),
        b"G" => Some(RowKind::G),
        b"L" => Some(RowKind::L),
        b"E" => Some(RowKind::E),
        _ => None,
    }
}

// The type of a combination that a word names.
pub fn combination_kind(word: &[u8]) -> Option<RowKind>
    ensures { result ≡ named combination_kinds word.now }
{
    match word {
        b"DN" => Some(RowKind::N),
        b"DG" => Some(RowKind::G),
        b"DL" => Some(RowKind::L),
        b"DE" => Some(RowKind::E),
        _ => None,
    }
}

/// The word that is the type of a row.
pub fn row_kind_word(kind: RowKind) -> &'static [u8]
    ensures word { result.now ≡ row_kind_text kind }
    ensures short { length result.now ≤ 2 }
{
    match kind {
        RowKind::N => b"N",
        RowKind::G => b"G",
        RowKind::L => b"L",
        RowKind::E => b"E",
    }
}

/// The word that is the type of a combination.
pub fn combination_word(kind: RowKind) -> &'static [u8]
    ensures word { result.now ≡ combination_text kind }
    ensures short { length result.now ≤ 2 }
{
    match kind {
        RowKind::N => b"DN",
        RowKind::G => b"DG",
        RowKind::L => b"DL",
        RowKind::E => b"DE",
    }
}

// Whether a word names a type of combinations.
pub fn combines(word: &[u8]) -> bool
    ensures { result ≡ is_some (named combination_kinds word.now) }
{
    combination_kind(word).is_some()
}

// Whether a word names a type of rows, of either sort.
pub fn is_row_type(word: &[u8]) -> bool
    ensures { result ≡ is_row_type word.now }
{
    row_kind(word).is_some() || combines(word)
}

// The type of a bound that a word names.
pub fn bound_kind(word: &[u8]) -> Option<BoundKind>
    ensures { result ≡ named bound_kinds word.now }
{
    match word {
        b"UP" => Some(BoundKind::Up),
        b"LO" => Some(BoundKind::Lo),
        b"FX" => Some(BoundKind::Fx),
        b"FR" => Some(BoundKind::Fr),
        b"MI" => Some(BoundKind::Mi),
        b"PL" => Some(BoundKind::Pl),
        _ => None,
    }
}

/// The word that is the type of a bound.
pub fn bound_kind_word(kind: BoundKind) -> &'static [u8]
    ensures word { result.now ≡ bound_kind_text kind }
    ensures short { length result.now ≤ 2 }
{
    match kind {
        BoundKind::Up => b"UP",
        BoundKind::Lo => b"LO",
        BoundKind::Fx => b"FX",
        BoundKind::Fr => b"FR",
        BoundKind::Mi => b"MI",
        BoundKind::Pl => b"PL",
    }
}

// Whether a word names a type of bounds that takes a number.
pub fn takes_number(word: &[u8]) -> bool
    ensures { result ≡ unwrap_or (option_map takes_value (named bound_kinds word.now)) false }
{
    match bound_kind(word) {
        Some(kind) => has_value(kind),
        None => false,
    }
}

/// Whether a bound of this type has a value.
pub fn has_value(kind: BoundKind) -> bool
    ensures { result ≡ takes_value kind }
{
    match kind {
        BoundKind::Up | BoundKind::Lo | BoundKind::Fx => true,
        BoundKind::Fr | BoundKind::Mi | BoundKind::Pl => false,
    }
}

// The section that a word begins.
pub fn section_named(word: &[u8]) -> Option<Section>
    ensures { result ≡ named section_words word.now }
{
    match word {
        b"NAME" => Some(Section::Header),
        b"ROWS" => Some(Section::Rows),
        b"COLUMNS" => Some(Section::Columns),
        b"RHS" => Some(Section::Rhs),
        b"RANGES" => Some(Section::Ranges),
        b"BOUNDS" => Some(Section::Bounds),
        b"ENDATA" => Some(Section::Endata),
        _ => None,
    }
}
