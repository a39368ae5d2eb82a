//! What is read of the cards of a deck: the words of section cards, the style that a NAME card gives, and the fields of data
//! cards, at fixed columns or by words, with the numbers in them; and the reader of all kinds of decks, which goes from card to
//! card and finds the first fault. Nothing here takes memory.
#![tactic(auto)]

mod blanks;
mod card_fields;
mod card_reading;
mod card_words;
mod data_card;
mod decimal;
mod field_lists;
mod free_card;
mod keywords;
mod reader;
mod reading;
mod sections;
mod style;
mod texts;

pub use card_definitions::NumberFault;
pub use card_fields::has_blank;
pub use card_reader::CardStop;
pub use card_reading::{
    first_pair, first_part, is_card_of, name_in, read_data_card, read_fixed_card, second_pair,
};
pub use card_words::{Word, Words, free_words, word_text};
pub use data_card::{DataCard, PairText};
pub use decimal::Decimal;
pub use deck_definitions::{DeckFault, DeckFaultKind};
pub use keywords::{
    bound_kind, bound_kind_word, combination_kind, combination_word, first_word, has_value,
    is_blank, is_word, row_kind, row_kind_word,
};
pub use reader::{Draft, read_cards};
pub use reading::number;
pub use sections::{SectionOrder, begins_section, is_section, next_section, rank_of};
pub use style::{header_style, style_begun};
