//! What a data card of a REVISE deck does to a problem under revision: what is known of the cards under an action so far, the fault of
//! one more under it, where a new row or column goes, and the edit that the card makes where it has no fault.
#![tactic(auto)]

mod card_edit;
mod edits;
mod faults;
mod pairs;
mod places;
mod under;
mod verdicts;

pub use card_edit::edit;
pub use under::UnderAction;
pub use verdicts::edit_fault_of;
