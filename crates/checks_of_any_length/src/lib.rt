//! The checker that reads numbers of up to 100,000 digits above and below the line, and refuses no operation on them.
#![tactic(auto)]

mod any_length;
mod claim_tests;
mod closing_tests;
mod directions;
mod long_words;
mod rays;

pub use any_length::OfAnyLength;
