//! The words of the command line, and what they ask for.
#![tactic(auto)]

mod given;
mod request;
mod size;
mod words;

pub use given::given_words;
pub use request::{Request, WordsStop};
pub use size::MAX_SIZE;
pub use words::request_of;
