//! Ranging: the intervals in which a basis stays optimal while one limit, one cost or one multiple of a row changes. Variables are
//! numbered from 1: the rows, and then the columns.
#![tactic(auto)]

mod choices;
mod intervals;
mod limit_ends;
mod lists;
mod optimum;
mod pass;
mod reporting;
mod row_ends;

pub use reporting::range;
