//! The decks of a job, cut from the cards after its program, and the deck that a run takes. Nothing here takes memory.
#![tactic(auto)]

mod cutting;
mod deck;
mod headings;

pub use cutting::take_deck;
pub use deck::Deck;
