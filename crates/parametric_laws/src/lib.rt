//! The laws of parametric runs, and their truth: what a run reports holds of the linear program at each value of the parameter.
//! The functions here do nothing. Each promises laws, so that the check proves them.
#![tactic(auto)]

ghost use Rattle.parametric_laws.specs.Laws.{BasisLaws, ReportLaws, TruthLaws};

/// A parametric run goes over nonsingular bases alone.
pub fn basis_laws()
    ensures { BasisLaws }
{}

/// From a nonsingular basis there is one parametric run, with one report.
pub fn report_laws()
    ensures { ReportLaws }
{}

/// What a parametric run reports is true.
pub fn truth_laws()
    ensures { TruthLaws }
{}
