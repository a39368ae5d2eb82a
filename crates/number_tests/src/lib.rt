//! Whole numbers of any length and printed fractions, tried on values that Python's integers gave.
#![tactic(auto)]

#[cfg(test)]
mod tests;
