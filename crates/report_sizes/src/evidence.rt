// The evidence of an overflow.
ghost use Rattle.fitting_answers.specs.Fitting.{EvidenceFits};

use lp_definitions::Evidence;

/// The fractions and the counts of an evidence fit.
pub fn recall_evidence(evidence: Evidence)
    ensures { EvidenceFits evidence }
{}
