//! What the walk along a listing proves, and that it comes to one thing. What is read of a listing, and judged right, is the text that
//! stands there, and is true of the linear program: verdicts, SOLUTION and parametric runs. The functions here compute nothing. Each
//! promises laws, so that the check proves them.
#![tactic(auto)]

ghost use Rattle.walk_definitions.specs.Checkers.{Checker};
ghost use Rattle.walk_laws.specs.Read.{ReadingLaw};
ghost use Rattle.walk_laws.specs.Judged.{JudgedLaws};
ghost use Rattle.walk_laws.specs.Laws.{AttestedLaw, OneComesLaw};

use interval_laws::{between_laws, past_laws};

/// An answer that is judged right was read of the text of its report, and what is left is what follows that text.
pub fn reading_law()
    ensures { (C : Checker) → ReadingLaw C }
{}

/// What passed its test says the truth. The laws of intervals on which that stands are promised by what it calls.
pub fn judged_laws()
    ensures { (C : Checker) → JudgedLaws C }
{
    between_laws();
    past_laws();
}

/// An attested listing is that of a run of the job, and what it says of linear programs is true.
pub fn attested_law()
    ensures { (C : Checker) → AttestedLaw C }
{
    reading_law();
    judged_laws();
}

/// Of each job and each listing one thing comes.
pub fn one_comes_law()
    ensures { (C : Checker) → OneComesLaw C }
{}
