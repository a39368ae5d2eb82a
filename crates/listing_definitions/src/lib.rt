//! Listings: what a run reports, how it ends, and the text of both. Definitions alone, and the enums that they share with the
//! code.
#![tactic(auto)]

use thiserror::Error;

/// The mark that a verdict of PRIMAL leaves, and that SOLUTION prints.
#[derive(Clone, Copy, Debug, PartialEq, Eq)]
pub enum Mark {
    Optimal,
    Infeasible,
    Unbounded,
}

/// The verb that a verdict or a parametric run belongs to.
#[derive(Clone, Copy, Debug, PartialEq, Eq)]
pub enum Solver {
    Primal,
    Dual,
    Paraobj,
    Pararhs,
}

/// Where a variable stands, as a table line shows it.
#[derive(Clone, Copy, Debug, PartialEq, Eq)]
pub enum At {
    /// Basic, within its limits.
    Basic,
    /// Basic, and outside its limits.
    Outside,
    /// Nonbasic, with equal limits.
    Equal,
    /// Nonbasic, at its lower limit.
    Lower,
    /// Nonbasic, at its upper limit.
    Upper,
    /// Nonbasic, without limits.
    Free,
}

/// Why a statement is refused.
#[derive(Clone, Copy, Debug, PartialEq, Eq, Error)]
pub enum VerbFault {
    /// There is no deck to take.
    #[error("there is no deck to take")]
    DeckNotFound,
    /// There is no problem of the name, or none at all.
    #[error("there is no problem")]
    NoProblem,
    /// There is no setup.
    #[error("there is no setup")]
    NoSetup,
    /// There is no mark.
    #[error("there is no mark")]
    NotSolved,
    /// The mark isn't OPTIMAL.
    #[error("the mark isn't OPTIMAL")]
    NotOptimal,
    /// XCHROW names no N row.
    #[error("XCHROW names no N row")]
    NoChangeRow,
    /// XCHCOL names no right-hand side set.
    #[error("XCHCOL names no right-hand side set")]
    NoChangeSet,
    /// XPARMAX wasn't moved.
    #[error("XPARMAX wasn't moved")]
    NoParmax,
    /// XPARMAX is less than XPARAM.
    #[error("XPARMAX is less than XPARAM")]
    ParmaxBelow,
    /// XOBJ names no row; or it wasn't moved, and there is no N row.
    #[error("there is no objective row")]
    NoObjective,
    /// XOBJ names a row of another type than N.
    #[error("the objective isn't an N row")]
    ObjectiveNotFree,
    /// XRHS names no right-hand side set.
    #[error("there is no such right-hand side set")]
    NoRhsSet,
    /// The setup names no range set of the problem.
    #[error("there is no such range set")]
    NoRangeSet,
    /// The setup names no bound set of the problem.
    #[error("there is no such bound set")]
    NoBoundSet,
    /// The basis that a deck gives is singular.
    #[error("the basis is singular")]
    Singular,
    /// The prices of the present basis aren't those of an optimal basis.
    #[error("the prices aren't those of an optimal basis")]
    WrongPrices,
}
