//! The bounded simplex method with the least-index rule (Dantzig, Linear Programming and Extensions, chapter 18; Bland, New
//! Finite Pivoting Rules for the Simplex Method), over any rates. Variables are numbered from 1: the rows, and then the columns.
#![tactic(auto)]

mod beginning;
mod free_path;
mod kept;
mod moves;
mod path;
mod position;
mod scaled_step;
mod step;
mod stopping;
mod turns;
mod workspace;

pub use basis_values::{Formula, counted, may_lower, plus_product, point_of, prices_of};
pub use beginning::opening;
pub use free_path::primal_free;
pub use kept::Kept;
pub use moves::{BlockingVariable, Move, PrimalStop};
pub use path::primal;
pub use position::Position;
pub use step::{returning, step_over};
pub use stopping::blocking_variable;
pub use turns::{
    Turn, best, copied, limit_broken, ray_of, return_along, signed_direction, whole_point,
};
pub use workspace::{Workspace, zeroed};
