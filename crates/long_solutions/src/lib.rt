//! The tests of what SOLUTION prints, and of the intervals of parametric runs, in numbers of any length. No operation is refused, so a
//! test holds or fails, whatever the order of its comparisons.
#![tactic(auto)]

mod intervals;
mod solutions;
mod values;
mod verdicts;

pub use intervals::interval_holds;
pub use solutions::printed_holds;
pub use values::{compare_values, compare_with_fraction, exceeds, is_at_most};
pub use verdicts::judged;
