//! What is asked of a run.

use frac128::Frac;

/// A parametric run of the objective: theta times the row is added to it, from one value to another, in at most so many steps.
#[derive(Clone, Copy, Debug, PartialEq, Eq)]
pub struct ParaObj {
    pub row: u32,
    pub from: Frac,
    pub to: Frac,
    pub limit: u32,
}
