//! The statements that solve, over any engine: PRIMAL, DUAL, PARAOBJ and PARARHS.
#![tactic(auto)]

mod parametric;
mod requested_run;
mod solving;

pub use parametric::show_parametric_run;
pub use solving::solve;
