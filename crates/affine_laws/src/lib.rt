//! Conditions on one number, each that an affine function of it is at least 0: where several hold together.
//! `condition_laws` does nothing: it promises laws, so that the check proves them.
#![tactic(auto)]

ghost use Rattle.affine_laws.specs.Laws.{ConditionLaws};

mod tightening;

pub use tightening::{Endpoint, Ends, ProductBound, tightened};

/// Conditions that all hold at a number hold just between the zeros of the functions that rise and of those that fall.
pub fn condition_laws()
    ensures { ConditionLaws }
{}
