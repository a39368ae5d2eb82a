//! The product form of the inverse: an eta file that is made anew from time to time.
#![tactic(auto)]

mod form;
mod last_column;
mod order;
mod rebuild;

pub use form::{ProductForm, Reinverted};
