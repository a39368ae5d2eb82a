//! The law of one run: each job has exactly one run that doesn't stop with an overflow.
//! The function here does nothing. It promises the law, so that the check proves it.
#![tactic(auto)]

ghost use Rattle.one_run_laws.specs.Laws.{OneRunLaws};

/// Each question that a run asks has an answer; so each job has exactly one run that doesn't stop with an overflow.
pub fn one_run_laws()
    ensures { OneRunLaws }
{}
