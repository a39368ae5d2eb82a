//! Fractions, linear programs, checks, rates, paths, ranging, parametric runs and the decks of bases, tried on small problems whose
//! numbers are worked by hand. Tests alone.
#![tactic(auto)]

#[cfg(test)]
mod checks;
#[cfg(test)]
mod decks;
#[cfg(test)]
mod engines;
#[cfg(test)]
mod exchanges;
#[cfg(test)]
mod fractions;
#[cfg(test)]
mod models;
#[cfg(test)]
mod parametric;
#[cfg(test)]
mod paths;
#[cfg(test)]
mod punched;
#[cfg(test)]
mod ranges;
#[cfg(test)]
mod ratios;
#[cfg(test)]
mod texts;
#[cfg(test)]
mod transport;
