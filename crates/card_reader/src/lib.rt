//! Reads a job to its end and cuts it into cards.
#![tactic(auto)]

mod blanks;
mod card;
mod cards;
mod cut;
mod read;
mod span;
mod stop;

pub use card::Card;
pub use cards::Cards;
pub use read::read_job;
pub use stop::{CardStop, ReadingFault};
