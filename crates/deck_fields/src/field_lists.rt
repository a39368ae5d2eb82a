// The fields that the words of a free data card are.
ghost use Rattle.std.specs.Prelude.{◌≡◌, ◌≤◌, All, length, map, IfSome, option_map};
ghost use Rattle.card_definitions.specs.Fields.{fields_for};
ghost use Rattle.deck_definitions.specs.DataCards.{words_given, words_deleted, words_on};

use crate::keywords::{combines, takes_number};
use deck_definitions::Section;

const PLAIN_ROW: &[&[u8]] = &[&[1, 2]];

const COMBINATION: &[&[u8]] = &[&[1, 2], &[1, 2, 3, 4], &[1, 2, 3, 4, 5, 6]];

const COLUMN: &[&[u8]] = &[&[2, 3, 4], &[2, 3, 4, 5, 6]];

const SET: &[&[u8]] = &[&[2, 3, 4], &[2, 3, 4, 5, 6], &[3, 4], &[3, 4, 5, 6]];

const BARE_BOUND: &[&[u8]] = &[&[1, 3], &[1, 2, 3]];

const VALUED_BOUND: &[&[u8]] = &[&[1, 3, 4], &[1, 2, 3, 4]];

const DELETED_ROW: &[&[u8]] = &[&[2]];

const DELETED_ITEM: &[&[u8]] = &[&[2], &[2, 3]];

// What a card that gives something may have, a list of fields for each number of words.
fn lists_given(section: Section, word: &[u8]) -> &'static [&'static [u8]]
    ensures lists { map (λ fields. fields.now) result.now ≡ words_given section word.now }
    ensures few { All (λ fields. length fields.now ≤ 6) result.now }
{
    match section {
        Section::Rows if combines(word) => COMBINATION,
        Section::Rows => PLAIN_ROW,
        Section::Columns => COLUMN,
        Section::Rhs | Section::Ranges => SET,
        Section::Bounds if takes_number(word) => VALUED_BOUND,
        Section::Bounds => BARE_BOUND,
        Section::Header | Section::Endata => &[],
    }
}

// What a card that names something to be deleted may have.
fn lists_deleted(section: Section) -> &'static [&'static [u8]]
    ensures lists { map (λ fields. fields.now) result.now ≡ words_deleted section }
    ensures few { All (λ fields. length fields.now ≤ 6) result.now }
{
    match section {
        Section::Rows => DELETED_ROW,
        _ => DELETED_ITEM,
    }
}

// What a card of this section with this first word may have.
fn lists_on(section: Section, deletes: bool, word: &[u8]) -> &'static [&'static [u8]]
    ensures lists { map (λ fields. fields.now) result.now ≡ words_on section deletes word.now }
    ensures few { All (λ fields. length fields.now ≤ 6) result.now }
{
    if deletes {
        lists_deleted(section)
    } else {
        lists_given(section, word)
    }
}

// The list with so many fields.
fn fields_for(lists: &'static [&'static [u8]], count: u8) -> Option<&'static [u8]>
    ensures fields { option_map (λ f. f.now) result ≡
        fields_for (map (λ fields. fields.now) lists.now) count }
    ensures few { All (λ fields. length fields.now ≤ 6) lists.now →
        IfSome result (λ f. length f.now ≤ 6) }
{
    for fields in lists {
        if fields.len() == usize::from(count) {
            return Some(fields);
        }
    }
    None
}

/// The fields that so many words are in order, on a card of this section with this first word, if it takes so many.
pub fn fields_on(section: Section, deletes: bool, word: &[u8], count: u8) -> Option<&'static [u8]>
    ensures fields { option_map (λ f. f.now) result ≡
        fields_for (words_on section deletes word.now) count }
    ensures few { IfSome result (λ f. length f.now ≤ 6) }
{
    fields_for(lists_on(section, deletes, word), count)
}
