//! Worked jobs, run from their bytes to the listing and the status. Nothing but tests.
#![tactic(auto)]

#[cfg(test)]
mod tests;
