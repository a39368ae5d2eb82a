//! Basis decks: a deck is read, and gives a basis; a basis is written as cards; and the rates of a basis are made anew.
#![tactic(auto)]

mod codes;
mod draft;
mod installing;
mod names;
mod punching;
mod reading;

pub use deck_fields::{CardStop, DeckFault, DeckFaultKind};
pub use installing::{InstallStop, install};
pub use punching::punch_basis;
pub use reading::read_basis;
