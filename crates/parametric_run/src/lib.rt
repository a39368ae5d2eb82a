//! Parametric runs: a linear program's basis is followed while a parameter of it grows. The trait `Parametric` says what depends on
//! how the program changes with the parameter; the chain of intervals and the face steps at its breakpoints are made here, once for
//! all methods. The definitions say what a call that makes a run promises.
#![tactic(auto)]

mod chain;
mod faces;
mod method;
mod run;
mod workspace;

pub use method::{FaceStep, Parametric, Span};
pub use run::follow;
pub use workspace::{
    Workspace, point_with, prices_with, reduced_point, still_point, still_prices, zeros,
};
