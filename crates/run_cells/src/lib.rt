//! The cells and demands of a run: names, numbers and positions that statements set and later statements read. No call takes memory.
#![tactic(auto)]

mod cells;

pub use cells::Cells;
pub use control_definitions::{Demand, NameCell, NumberCell};
