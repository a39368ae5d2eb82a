//! The report of a run.

use frac128::Refused;
use lp_model::ParaReport;

/// What a run reports; and, where its opening path isn't optimal, the first operation that the check of that outcome was refused, if one
/// was.
#[derive(Debug, Drop)]
pub struct RunReport {
    pub report: ParaReport,
    pub refused: Option<Refused>,
}
