//! Control programs that stand in several jobs.

/// Reads a problem.
pub const CONVERT: &[u8] = b"         PROGRAM
         CONVERT
         EXIT
         PEND
";

/// Reads a problem and revises it.
pub const REVISE: &[u8] = b"         PROGRAM
         CONVERT
         REVISE
         EXIT
         PEND
";

/// Solves a problem and shows its plan.
pub const SOLVE: &[u8] = b"         PROGRAM
         CONVERT
         SETUP
         PRIMAL
         SOLUTION
         EXIT
         PEND
";

/// SOLVE, but the objective is maximised.
pub const SOLVE_MAX: &[u8] = b"         PROGRAM
         CONVERT
         SETUP('MAX')
         PRIMAL
         SOLUTION
         EXIT
         PEND
";

/// SOLVE with the set BND of bounds.
pub const SOLVE_BND: &[u8] = b"         PROGRAM
         CONVERT
         SETUP('BOUND','BND')
         PRIMAL
         SOLUTION
         EXIT
         PEND
";

/// SOLVE with the set BND1 of bounds.
pub const SOLVE_BND1: &[u8] = b"         PROGRAM
         CONVERT
         SETUP('BOUND','BND1')
         PRIMAL
         SOLUTION
         EXIT
         PEND
";

/// SOLVE with the set R of ranges.
pub const SOLVE_RANGE: &[u8] = b"         PROGRAM
         CONVERT
         SETUP('RANGE','R')
         PRIMAL
         SOLUTION
         EXIT
         PEND
";

/// Solves a problem, and goes to the statement LAB, with which the next part of the program begins, where it has no bound.
pub const LAB_IF_UNBOUNDED: &[u8] = b"         PROGRAM
         CONVERT
         SETUP
         MVADR(XDOUNB,LAB)
         PRIMAL
         EXIT
";

/// SOLVE where no step may be made.
pub const SOLVE_IN_NO_STEP: &[u8] = b"         PROGRAM
         CONVERT
         SETUP
         MOVE(XITERLIM,0)
         PRIMAL
         SOLUTION
         EXIT
         PEND
";

/// Follows the dual path and shows the plan.
pub const DUAL: &[u8] = b"         PROGRAM
         CONVERT
         SETUP
         DUAL
         SOLUTION
         EXIT
         PEND
";

/// DUAL with the set BND of bounds.
pub const DUAL_BND: &[u8] = b"         PROGRAM
         CONVERT
         SETUP('BOUND','BND')
         DUAL
         SOLUTION
         EXIT
         PEND
";

/// Reads a problem and the deck of a basis, with the set BND of bounds.
pub const INSERT_BND: &[u8] = b"         PROGRAM
         CONVERT
         SETUP('BOUND','BND')
         INSERT
         EXIT
         PEND
";

/// Follows the change CHG of the objective up to 5.
pub const PARAOBJ_TO_5: &[u8] = b"         PROGRAM
         CONVERT
         SETUP
         MOVE(XCHROW,'CHG')
         MOVE(XPARMAX,5)
         PARAOBJ
         EXIT
         PEND
";

/// Follows the change C of the right-hand side up to 5, with the set BND of bounds.
pub const PARARHS_TO_5: &[u8] = b"         PROGRAM
         CONVERT
         SETUP('BOUND','BND')
         MOVE(XCHCOL,'C')
         MOVE(XPARMAX,5)
         PARARHS
         EXIT
         PEND
";

/// Solves a random plan with the set B of bounds, after 1 is moved to XPARMAX.
pub const SOLVE_WIDE_TO_1: &[u8] = b"         PROGRAM
         CONVERT
         MOVE(XPARMAX,1)
         SETUP('BOUND','B')
         PRIMAL
         SOLUTION
         EXIT
         PEND
";

/// The same after it is moved to 40.
pub const SOLVE_WIDE_TO_40: &[u8] = b"         PROGRAM
         CONVERT
         MOVE(XPARMAX,40)
         SETUP('BOUND','B')
         PRIMAL
         SOLUTION
         EXIT
         PEND
";
