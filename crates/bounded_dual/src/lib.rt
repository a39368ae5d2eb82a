//! The dual simplex method with the least-index rule (Lemke, The dual method of solving the linear programming problem; Wagner, The
//! dual simplex algorithm for bounded variables), over any rates. Variables are numbered from 1: the rows, and then the columns.
#![tactic(auto)]

mod moves;
mod path;
mod turns;

pub use moves::DualStop;
pub use path::dual;
