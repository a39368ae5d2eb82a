//! The walk along a control program, where the report of each statement is taken from a listing. What asks nothing of linear programming
//! is done by the machine of runs, and what it prints has to stand in the listing; what asks of linear programming is read there and
//! tested.
#![tactic(auto)]

mod answering;
mod asked_runs;
mod chosen;
mod course;
mod execute;
mod follow;
mod found;
mod inserting;
mod parameter;
mod parametric_runs;
mod place;
mod reporting;
mod selecting;
mod setup;
mod solution;
mod solving;
mod statements;
mod walk_step;

pub use course::{closes, walk};
pub use found::Found;
