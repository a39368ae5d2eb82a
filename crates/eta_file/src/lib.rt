//! An inverse kept as a list of elementary matrices, one for each exchange.
#![tactic(auto)]

mod basic_set;
mod by_columns;
mod carry;
mod eta;
mod file;
mod guess;
mod modular;
mod steps;
mod whole;
mod words;
mod workspace;

pub use by_columns::{ByColumns, rate_by_column};
pub use eta::{Eta, EtaEntry, ScaledEta, StoredEta, WholeEta};
pub use file::EtaFile;
pub use steps::Steps;
pub use words::WordEntry;
pub use workspace::ColumnWorkspace;
