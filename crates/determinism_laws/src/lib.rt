//! The law of runs as functions: two runs of one job that don't stop with an overflow are the same. And the law of stops: how a job ends
//! where nothing fails, and what stands of its listing and its punched cards after each status.
//! The functions here do nothing. Each promises a law, so that the check proves it.
#![tactic(auto)]

ghost use Rattle.determinism_laws.specs.Laws.{RunFunctions};
ghost use Rattle.determinism_laws.specs.Stands.{StopLaws};

pub fn determinism_laws()
    ensures { RunFunctions }
{}

pub fn ending_laws()
    ensures { StopLaws }
{}
