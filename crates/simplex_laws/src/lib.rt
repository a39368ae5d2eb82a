//! The laws of the paths of the bounded simplex method and of the dual one, and of its ratio test.
//! The functions here do nothing. Each promises laws, so that the check proves them.
#![tactic(auto)]

ghost use Rattle.simplex_laws.specs.Laws.{EndLaws, StepLaws, FeasibleLaws, SearchLaws};
ghost use Rattle.simplex_laws.specs.DualLaws.{DualLaws};

pub fn end_laws()
    ensures { EndLaws }
{}

pub fn step_laws()
    ensures { StepLaws }
{}

pub fn feasible_laws()
    ensures { FeasibleLaws }
{}

pub fn search_laws()
    ensures { SearchLaws }
{}

pub fn dual_laws()
    ensures { DualLaws }
{}
