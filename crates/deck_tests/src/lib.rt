//! Worked cards, names, numbers, decks and control programs. Nothing but tests.
#![tactic(auto)]

#[cfg(test)]
mod tests;
