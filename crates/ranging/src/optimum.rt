//! An optimal basis with its values.

use frac128::Frac;
use lp_model::{Basis, Lp};

/// A basis that is optimal in a linear program, with its point and its prices.
#[derive(Clone, Copy)]
pub struct Optimum<'a> {
    pub lp: &'a Lp,
    pub basis: &'a Basis,
    pub point: &'a [Frac],
    pub prices: &'a [Frac],
}
