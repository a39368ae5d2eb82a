//! The texts of the reports of a run and of its ends, written piece by piece into a sink. No call takes memory.
#![tactic(auto)]

mod ending;
mod overflow;
mod parametric;
mod plain;
mod ranges;
mod report;
mod section;
mod solution;
mod verdict;

pub use listing_definitions::{Mark, Solver};
pub use report::{Ending, Report, text_of};
