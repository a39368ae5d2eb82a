//! What each method asks at a basis, over any rates: its point and its prices; the formulas, whose operations give evidence where
//! they are refused; the tests of limits; the least-numbered variables that a method chooses; and how long a motion lasts until a
//! variable reaches a limit. Variables are numbered from 1: the rows, and then the columns.
#![tactic(auto)]

mod choices;
mod formula;
mod point;
mod prices;
pub mod reach;
mod wants;
mod word_terms;

pub use choices::{
    counted, crossed, entering_variable, is_minimized, lies_below, may_lower, outside,
    stands_basic, wrong_price,
};
pub use formula::{Formula, plus_product};
pub use point::{point_at, point_of};
pub use prices::{fill_prices, prices_at, prices_of};
pub use wants::{renew_wants, wants_of};
