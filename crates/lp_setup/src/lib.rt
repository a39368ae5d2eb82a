//! The linear program of a selection: of a problem, the rows, sets and options that are chosen.
#![tactic(auto)]

mod changes;
mod choice;
mod chosen;
mod combined;
mod limits;
mod matrix;
mod parts;
mod selection;
mod stop;

pub use changes::{free_row, set_values};
pub use choice::Choice;
pub use control_verbs::SetupOptions;
pub use lp_model::{Entry, Evidence, Lp, Sense};
pub use selection::select;
pub use stop::SelectStop;
