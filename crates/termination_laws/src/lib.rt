//! The path of the bounded simplex method never returns to a basis, and so it ends; and so does the dual path.
//! The function here does nothing. It promises laws, so that the check proves them.
#![tactic(auto)]

ghost use Rattle.termination_laws.specs.Laws.{TerminationLaws, DualTerminationLaws};

pub fn termination_laws()
    ensures { TerminationLaws }
{}

pub fn dual_termination_laws()
    ensures { DualTerminationLaws }
{}
