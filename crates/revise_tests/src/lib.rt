//! Worked revisions: each action in each section, and the faults of REVISE decks alone. Nothing but tests.
#![tactic(auto)]

#[cfg(test)]
mod decks;
#[cfg(test)]
mod faults;
#[cfg(test)]
mod revisions;
