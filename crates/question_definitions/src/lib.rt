//! What a run asks of linear programming, and what the answers may be. Definitions alone.
#![tactic(auto)]
