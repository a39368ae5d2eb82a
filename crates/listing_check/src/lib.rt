//! One listing, from the bytes of its job and its own bytes to the line that says what it is found to be, and the status.
#![tactic(auto)]

mod check;
mod line;
mod program;
mod start;
mod status;

pub use check::check_listing;
pub use program::run_checker;
pub use status::CheckStatus;
