//! What PARAOBJ and PARARHS ask for by the cells: what changes along the parametric run, and its first and last value.
#![tactic(auto)]

mod request;

pub use request::{Change, ParametricRequest, ParametricVerb, RequestStop, change_of, request_of};
