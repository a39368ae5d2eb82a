//! The tables that the listing prints of a problem and its linear program, line by line, written into a sink. No call takes memory.
#![tactic(auto)]

mod buffer;
mod intervals;
mod line;
mod pieces;
mod sheet;
mod table;

pub use buffer::TextBuffer;
pub use pieces::{
    NAME_PLACES, NUMBER_PLACES, at_word, blanks, decimal, fraction, mark_word, operation,
    sense_word, solver_word,
};
pub use sheet::{Sheet, name_of, objective_of, row_count};
pub use table::{Ranging, Standing, Table, put_table};
