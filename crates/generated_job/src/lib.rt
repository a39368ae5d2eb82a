//! The generated job: a transportation problem of a size that is chosen, as the text of a job.
#![tactic(auto)]

mod cards;
mod job;
mod names;
mod sections;

pub use job::make_job;
