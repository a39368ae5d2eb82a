//! What a job is before its program is run: its cards, its program, and why there is none.
#![tactic(auto)]

mod reading;
mod stop;

pub use reading::{Prepared, prepare};
pub use stop::EarlyStop;
