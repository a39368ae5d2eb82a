//! Decks of cards, control programs and listings of worked jobs, for the crates of tests. Constants alone.
#![tactic(auto)]

pub mod listings;
pub mod parts;
pub mod problems;
pub mod programs;
pub mod runs;
