//! Control programs of jobs that are run in one crate of tests and attested in another.

/// Solves a problem and shows no plan.
pub const PRIMAL: &[u8] = b"         PROGRAM
         CONVERT
         SETUP
         PRIMAL
         EXIT
         PEND
";

/// SOLVE with the set BND1 of bounds, where no more than two steps may be made.
pub const SOLVE_BND1_IN_2_STEPS: &[u8] = b"         PROGRAM
         CONVERT
         SETUP('BOUND','BND1')
         MOVE(XITERLIM,2)
         PRIMAL
         SOLUTION
         EXIT
         PEND
";

/// Solves a problem with the set BND of bounds, and asks for the intervals in which its plan stays the best.
pub const RANGE_BND: &[u8] = b"         PROGRAM
         CONVERT
         SETUP('BOUND','BND')
         PRIMAL
         RANGE
         EXIT
         PEND
";

/// Follows the change CHG of the objective up to 5, with the set BND of bounds.
pub const PARAOBJ_BND_TO_5: &[u8] = b"         PROGRAM
         CONVERT
         SETUP('BOUND','BND')
         MOVE(XCHROW,'CHG')
         MOVE(XPARMAX,5)
         PARAOBJ
         EXIT
         PEND
";

/// Follows the change C of the right-hand side from 0 to 0, with the set BND of bounds.
pub const PARARHS_BND_TO_0: &[u8] = b"         PROGRAM
         CONVERT
         SETUP('BOUND','BND')
         MOVE(XCHCOL,'C')
         MOVE(XPARMAX,0)
         PARARHS
         EXIT
         PEND
";
