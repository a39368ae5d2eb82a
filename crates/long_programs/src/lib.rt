//! Linear programs at a value of the parameter, and numbers compared with their limits and costs. Numbers are whole numbers of any length
//! over one denominator, over which the parameter is a whole number too, so no program is made.
#![tactic(auto)]

mod at_theta;
mod limits;
mod own;
mod programs;
mod spread_at;
mod spreads;

pub use at_theta::AtTheta;
pub use limits::{LimitOrders, compare_to_limits};
pub use own::{as_it_is, own_theta, spread_own};
pub use programs::{ChangeAt, ProgramAt, change_at, number_on, shift_at, subtract_cost};
pub use spread_at::SpreadAt;
pub use spreads::{Spread, spread_by, top_of};
