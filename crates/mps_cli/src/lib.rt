//! One job, from the words of the command line and the bytes of the job to the listing and the status.
#![tactic(auto)]

mod end;
mod run;

pub use control_run::RunStatus;
pub use generated_job::make_job;
pub use run::run_job;
