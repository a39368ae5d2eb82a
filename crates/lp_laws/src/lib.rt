//! What is proved of linear programs and their bases: what certificates prove, the rates of a set of basics and how an exchange
//! changes them, the point of a basis, and the ends of a path.
//! The functions here do nothing. Each promises laws, so that the check proves them.
#![tactic(auto)]

ghost use Rattle.lp_laws.specs.Laws.{CertificateLaws, FunctionalLaws, RatesLaws, BasisLaws, EndLaws, WaypointLaws};

pub fn certificate_laws()
    ensures { CertificateLaws }
{}

pub fn functional_laws()
    ensures { FunctionalLaws }
{}

pub fn rates_laws()
    ensures { RatesLaws }
{}

pub fn basis_laws()
    ensures { BasisLaws }
{}

pub fn end_laws()
    ensures { EndLaws }
{}

pub fn waypoint_laws()
    ensures { WaypointLaws }
{}
