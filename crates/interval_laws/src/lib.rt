//! Finitely many tests of a parametric run prove it at every value of the parameter: tests at both ends of an interval all that lies
//! between them, and tests at the last end all that lies past it. The functions here do nothing. Each promises laws, so that the check
//! proves them.
#![tactic(auto)]

ghost use Rattle.interval_laws.specs.Laws.{BetweenLaws, PastLaws};

/// What is best and proved at both ends of an interval, where the prices of both stand at the same limits, is so at every value between.
pub fn between_laws()
    ensures { BetweenLaws }
{}

/// A direction or multipliers that close a run prove for every greater value that there is no best point, or no feasible one.
pub fn past_laws()
    ensures { PastLaws }
{}
