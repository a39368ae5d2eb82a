//! A checker in fractions of 128 bits: numbers and operations are those of the run that wrote the listing. An operation whose result
//! doesn't fit is refused, and the test that asks for it stops there.
#![tactic(auto)]

mod checker;
mod claim_tests;
mod closing_tests;
mod families;
mod fractions;
mod interval_tests;
mod judging;
mod solution_tests;

pub use checker::Of128Bits;
