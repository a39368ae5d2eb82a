//! Names of rows, columns, sets and problems, and tables of names in first-seen order.
#![tactic(auto)]

mod name;
mod places;
mod table;

pub use name::Name;
pub use places::{padded, trailing_blanks, without_trailing_blanks};
pub use table::{AddStop, NameTable};
