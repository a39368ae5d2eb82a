//! The compiler of control programs.
#![tactic(auto)]

mod compiler;
mod draft;
mod labels;
mod program;
mod reading;
mod settling;

pub use card_reader::CardStop;
pub use compiler::compile;
pub use control_definitions::{ControlFault, ControlFaultKind, Demand, NameCell, NumberCell};
pub use control_verbs::{SetupOptions, Statement, Text, Verb};
pub use program::{Program, RunInput};
