//! Parametric runs of the right-hand side: theta times its shift is added to the limits of each row, and the basis is followed while
//! theta grows.
#![tactic(auto)]

mod breaks;
mod limits;
mod method;
mod parts;
mod reaching;
mod reported;
mod run;
mod slopes;
mod turns;

pub use breaks::Leaver;
pub use dual_step::cheapest;
pub use limits::{Side, program_at};
pub use parts::ParaRhs;
pub use run::para_rhs;
