//! Parametric runs of the objective: a multiple theta of a change row is added to it, and the basis is followed while theta grows.
#![tactic(auto)]

mod breaks;
mod choices;
mod method;
mod parts;
mod reaching;
mod run;
mod turns;

pub use parts::ParaObj;
pub use run::para_obj;
