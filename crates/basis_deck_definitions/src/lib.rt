//! Basis decks: which status list a deck stands for, the first fault of one, and the deck that is written for a basis. Definitions alone,
//! but for what field 1 of a data card says.
#![tactic(auto)]

use lp_definitions::Status;

/// What field 1 of a data card says.
#[derive(Clone, Copy, Debug, PartialEq, Eq)]
pub enum Code {
    /// The column in field 2 is basic, and the row in field 3 stands at this limit.
    Exchanges(Status),
    /// The column in field 2 stands at this limit.
    Stands(Status),
}
