//! The words of a listing, read where they stand: texts, counts, and numbers, each of which is the word that is its text. Nothing is
//! copied, and no memory is taken.
#![tactic(auto)]

mod allowance;
mod cursor;
mod number;
mod numbers;
mod slash;

pub use allowance::Allowance;
pub use cursor::Cursor;
pub use number::Number;
pub use numbers::{count_in, fraction_in};
pub use slash::{after_slash, before_slash, has_slash};
