//! What is asked of a run.

use frac128::Frac;

/// A parametric run of the right-hand side: theta times its shift is added to the limits of each row, from one value to another, in at
/// most so many steps. `shift` has a place for each row.
#[derive(Debug, Drop)]
pub struct ParaRhs {
    pub shift: Vec<Frac>,
    pub from: Frac,
    pub to: Frac,
    pub limit: u32,
}
