//! The law that a parametric run always has its report: within any number of steps it has ended, or it goes on after them.
//! The function here does nothing. It promises the law, so that the check proves it.
#![tactic(auto)]

ghost use Rattle.parametric_existence_laws.specs.Laws.{RunsExist};

/// From each nonsingular basis a parametric run has ended within so many steps, with its report, or it goes on after them.
pub fn parametric_runs_exist()
    ensures { RunsExist }
{}
