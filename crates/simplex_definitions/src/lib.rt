//! What the methods of linear programming do: the path of the bounded simplex method with the least-index rule; the intervals of
//! ranging in which a basis stays optimal; parametric runs of the objective and of the right-hand side; and what shows that a number
//! was too large. The crate has definitions alone, for the contracts of other crates.
#![tactic(auto)]
