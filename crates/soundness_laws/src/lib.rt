//! The law of whole runs: each report of the run of a job holds of the state in which it was made.
//! The function here does nothing. It promises the law, so that the check proves it.
#![tactic(auto)]

ghost use Rattle.soundness_laws.specs.Laws.{RunLaws};

pub fn soundness_laws()
    ensures { RunLaws }
{}
