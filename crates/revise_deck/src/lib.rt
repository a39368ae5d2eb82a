//! The revision of a problem by a REVISE deck: the cards of the deck one after another, what each changes, or its fault, and the
//! problem after the whole deck.
#![tactic(auto)]

mod draft;
mod naming;
mod numbering;
mod revision;
mod sections;

pub use deck_fields::{CardStop, DeckFault, DeckFaultKind};
pub use draft::ReviseDraft;
pub use revision::revise;
