//! When a basis stays optimal while one number of its linear program changes: a limit, a cost, a multiple of a row that is added
//! to the objective, or a multiple of their shifts that is added to the limits of the rows. The point and the rates of the basis
//! are affine in that number, so the basis is optimal just where finitely many affine functions are at least 0.
//! The functions here do nothing. Each promises laws, so that the check proves them.
#![tactic(auto)]

ghost use Rattle.sensitivity_laws.specs.Laws.{TableauLaws, ChangedLaws};

/// A basis is optimal where one tableau of it says so.
pub fn tableau_laws()
    ensures { TableauLaws }
{}

/// Where an optimal basis stays optimal.
pub fn changed_laws()
    ensures { ChangedLaws }
{}
