//! The deck of a problem, and single cards, written out. Nothing here takes memory.
#![tactic(auto)]

mod card;
mod count;
mod deck;
mod sections;

pub use card::{WrittenCard, put_card, put_name};
pub use deck::deck_of;
pub use sections::{column_name, row_name};
