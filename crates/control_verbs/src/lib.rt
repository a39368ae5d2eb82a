//! The verbs of control programs with their arguments, and how they are read from a card: its label, its statement, and the verb and
//! the arguments of a statement. Nothing here takes memory.
#![tactic(auto)]

mod columns;
mod fault;
mod given;
mod options;
mod parts;
mod places;
mod quotes;
mod reading;
mod tables;
mod text;
mod verb;
mod words;

pub use columns::label;
pub use control_definitions::ControlFaultKind;
pub use fault::{card_fault, head_fault, is_pend};
pub use given::{is_label, label_in};
pub use reading::verb_of;
pub use tables::{Cell, VerbWord, cell_of, demand_of, verb_word_of};
pub use text::Text;
pub use verb::{SetupOptions, Statement, Verb};
