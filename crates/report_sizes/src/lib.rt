//! That the numbers of a report fit: they are fractions of 128 bits. The invariant of a `Frac` says so of one; of a list of them it is
//! known once each was looked at. So these functions look at each number, and do nothing else. An evidence is handed over by value, and
//! its invariant says so of its own.
#![tactic(auto)]

mod chain;
mod evidence;
mod numbers;
mod solution;
mod verdict;

pub use chain::recall_chain;
pub use evidence::recall_evidence;
pub use solution::recall_solution;
pub use verdict::recall_verdict;
