//! The parts of a problem by names: its rows, columns, sets of right-hand sides, ranges and bounds, in which each name is looked up
//! by its hash; what a data card adds to them, or its fault; and what a card of a revision changes in them.
#![tactic(auto)]

mod bound_sets;
mod bounds;
mod changes;
mod ends;
mod entries;
mod fault_after;
mod groups;
mod kinds;
mod named;
mod numbers;
mod on_row;
mod pairs;
mod parts;
mod row_cards;
mod rows;
mod sections;

pub use bound_sets::{BoundSets, bound_value, take_bound_card};
pub use bounds::Bounds;
pub use changes::{BoundChange, EntryChange};
pub use deck_definitions::{DeckFaultKind, Section};
pub use deck_fields::CardStop;
pub use entries::Entries;
pub use groups::Groups;
pub use kinds::kind_on;
pub use on_row::OnRow;
pub use pairs::{number_in, row_of};
pub use parts::{NamedBound, NamedProblem};
pub use row_cards::{has_more, take_row_card};
pub use rows::{Rows, is_free};
pub use sections::{follows, is_marker, take_column_card, take_set_card};
