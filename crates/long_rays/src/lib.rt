//! The tests of rays and directions in numbers of any length, each over the whole numbers of a vector over one denominator. Each tells
//! exactly whether all comparisons of its definition hold.
#![tactic(auto)]

mod crossed;
mod directions;
mod limits;
mod objectives;
mod vanishing;

pub use crossed::limits_cross;
pub use directions::direction_is_free;
pub use limits::limits_order;
pub use objectives::{is_value_of, objective_order, shift_order};
pub use vanishing::ray_vanishes;
