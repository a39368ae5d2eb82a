//! What the checks of a linear program's verdicts are, as lists of operations and comparisons. The definitions that contracts cite stand
//! in `specs/`.
#![tactic(auto)]

use frac128::Refused;

/// What a check finds: each operation is exact and each comparison holds; or this comparison is the first to fail, with its part and the
/// number of its row, column or variable; or this operation is the first to be refused.
#[derive(Clone, Copy, Debug, PartialEq, Eq)]
pub enum Verdict {
    Checked,
    Failed { part: u8, number: u32 },
    Unchecked(Refused),
}
