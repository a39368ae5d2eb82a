//! What SETUP keeps for a run over any engine, and SETUP itself; where an operation is refused; and the verbs by which a basis goes out
//! and comes in: PUNCH writes the present basis as a deck, and INSERT makes that of a deck the present one.
#![tactic(auto)]

mod again;
mod basis_out;
mod insert;
mod kept;
mod overflow;
mod setup;

pub use again::select_again;
pub use basis_out::punch_present;
pub use insert::insert_basis;
pub use kept::Setup;
pub use overflow::{overflow_at, place_at};
pub use setup::set_up;
