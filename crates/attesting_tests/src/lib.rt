//! Worked listings of worked jobs, and what each is found to be. Nothing but tests.
#![tactic(auto)]

#[cfg(test)]
mod tests;
