//! The answers that stand in a listing to what a control program asks of linear programming: read where they stand, and tested by their
//! own numbers, as a checker tests them. No path, no basis and no rates are known here.
#![tactic(auto)]

mod answer;
mod claims;
mod closing;
mod intervals;
mod openings;
mod parametric_runs;
mod reader;
mod solution;
mod unread;
mod words;

pub use answer::{
    Conclusion, ParametricRunAnswer, answer_to_parametric_run, answer_to_path, answer_to_solution,
};
