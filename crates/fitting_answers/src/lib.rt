//! What a run prints of linear programming in numbers of 128 bits. Definitions alone.
#![tactic(auto)]
