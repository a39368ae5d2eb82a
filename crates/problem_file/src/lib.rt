//! Problems as decks state them, and the file that a run keeps them in.
#![tactic(auto)]

mod file;
mod parts;
mod problem;

pub use deck_fields::Decimal;
pub use file::ProblemFile;
pub use job_devices::NoMemory;
pub use parts::{BoundItem, BoundSet, ColumnDecl, DeckEntry, Group, RowDecl, ValueSet};
pub use problem::Problem;
pub use problem_definitions::{BoundKind, RowKind};
