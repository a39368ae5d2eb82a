//! Laws of runs whose answers fit 128 bits. The functions here do nothing. Each promises a law, so that the check proves it.
#![tactic(auto)]

ghost use Rattle.fitting_laws.specs.Laws.{AreRuns, PrintsFitting};

/// Each is a run of its job.
pub fn are_runs()
    ensures { AreRuns }
{}

/// Its reports fit.
pub fn prints_fitting()
    ensures { PrintsFitting }
{}
