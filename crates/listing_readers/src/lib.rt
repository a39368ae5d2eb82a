//! What stands in a listing, read where it stands: numbers, table lines, and the lines that can't be attested. Nothing is copied; a table
//! takes memory for its numbers alone. How the word of a number is taken is the caller's choice.
#![tactic(auto)]

mod lines;
mod rays;
mod stops;
mod tables;
mod unread;

pub use lines::{code, known_limit, number, operation_of, take_head, take_name};
pub use rays::{begins_table_line, ray};
pub use stops::{MAX_COUNT, is_inserted, is_open_stop, is_punched, is_ranges};
pub use tables::{Numbers, Place, Shape, line, numbers_at, table};
pub use unread::Unread;
