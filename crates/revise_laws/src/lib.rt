//! What is proved of revisions: a REVISE deck makes a lawful problem of a lawful one.
//! The function here does nothing. It promises the law, so that the check proves it.
#![tactic(auto)]

ghost use Rattle.revise_laws.specs.Laws.{KeepsProblems};

pub fn revision_laws()
    ensures { KeepsProblems }
{}
