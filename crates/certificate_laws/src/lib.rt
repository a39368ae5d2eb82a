//! What a check of a linear program's verdict proves, part by part, where each of its comparisons holds. No part speaks of the operations
//! that an arithmetic refuses: where steps are checked in any arithmetic, their comparisons hold.
//! The function here does nothing. It promises laws, so that the check proves them.
#![tactic(auto)]

ghost use Rattle.certificate_laws.specs.Laws.{CheckedLaws};

pub fn checked_laws()
    ensures { CheckedLaws }
{}
