//! The linear program that a choice of a problem's rows and sets makes. Definitions alone, and the enum that they share with the
//! code.
#![tactic(auto)]

use thiserror::Error;

/// Why a selection is refused, in the order of its tests.
#[derive(Clone, Copy, Debug, PartialEq, Eq, Error)]
pub enum SelectionFault {
    /// The chosen objective isn't a row; or none is chosen, and there is no N row.
    #[error("there is no objective row")]
    NoObjective,
    /// The chosen objective is a row of another type than N.
    #[error("the objective row isn't an N row")]
    ObjectiveNotFree,
    /// The chosen right-hand side set isn't there.
    #[error("there is no such right-hand side set")]
    NoRhsSet,
    /// The chosen range set isn't there.
    #[error("there is no such range set")]
    NoRangeSet,
    /// The chosen bound set isn't there.
    #[error("there is no such bound set")]
    NoBoundSet,
}
