//! A step of the dual simplex method at a basis, over any rates: the ratio test, by which a basic is brought back to a limit at the
//! least loss, the rates of that basic, and the basis's prices over such a step. Variables are numbered from 1: the rows, and then the columns.
#![tactic(auto)]

mod prices;
mod ratios;
mod rows;

pub use prices::prices_over;
pub use ratios::cheapest;
pub use rows::read_row;
