//! What a listing claims of linear programs, with the numbers that are to prove it, and how a checker reads and tests such numbers: the
//! trait `Checks`, of which each checker is one implementation. A walk along a listing knows no more of a checker than this trait.
#![tactic(auto)]

mod checks;
mod claims;

pub use checks::{By, Checks, number_by};
pub use claims::{
    AskedRun, Claim, Closing, Columns, Pair, Part, PlacedPart, Printed, SheetRun, Stop,
};
