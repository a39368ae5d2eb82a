//! A basis that PUNCH has punched comes back by INSERT, in the same run or in another. The function here does nothing. It promises the
//! laws, so that the check proves them.
#![tactic(auto)]

ghost use Rattle.carried_basis_laws.specs.Laws.{CarriedBasisLaws};

/// What PUNCH punches stands for the present basis, and INSERT of such a deck gives it back.
pub fn carried_basis_laws()
    ensures { CarriedBasisLaws }
{}
