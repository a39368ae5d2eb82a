//! Runs a compiled control program over the cards of a job, and prints its reports.
#![tactic(auto)]

mod execute;
mod finish;
mod run;
mod status;

pub use run::{RunEngine, run_on};
pub use status::RunStatus;
