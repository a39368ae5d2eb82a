//! The conversion of data decks: the cards of a deck one after another, what each adds to a problem in the making, or its fault,
//! and the problem of the whole deck.
#![tactic(auto)]

mod conversion;
mod draft;
mod problem_draft;

pub use conversion::{convert, problem_name, problem_of};
pub use deck_fields::{CardStop, DeckFault, DeckFaultKind};
pub use draft::DeckDraft;
pub use named_problem::Section;
pub use problem_draft::ProblemDraft;
