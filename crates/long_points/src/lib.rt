//! The tests of points, prices, slacks and intervals in numbers of any length, each over the whole numbers of a vector over one
//! denominator. Each tells exactly whether all comparisons of its definition hold.
#![tactic(auto)]

mod each;
mod ends;
mod keeping;
mod limits;
mod priced_at;
mod prices;
mod rows;
mod slacks;
mod work;

pub use each::each_holds;
pub use ends::{End, Ends};
pub use keeping::all_prices_keep;
pub use limits::{
    asked_by, both, counted, counted_sign, feasible, limits_hold, optimal, prices_stand, sign_of,
};
pub use priced_at::PricedAt;
pub use prices::{column_sum, reduced_costs_hold};
pub use rows::{column_top, equations_hold};
pub use slacks::slacks_hold;
pub use work::{check_sums, take_spread, take_sums};
