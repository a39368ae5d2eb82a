//! The statements that show the present basis, over any engine: SOLUTION and RANGE.
#![tactic(auto)]

mod present;

pub use present::{ShowingVerb, show_present};
