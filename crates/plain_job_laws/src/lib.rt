//! A witness of completeness: jobs of which it is proved that no evidence of an overflow holds at any moment of their run.
//! The function here does nothing. It promises the law, so that the check proves it.
#![tactic(auto)]

ghost use Rattle.plain_job_laws.specs.Laws.{PlainJobLaw};

/// A job whose statements neither select a linear program nor ask anything of one meets no evidence of an overflow.
pub fn plain_job_law()
    ensures { PlainJobLaw }
{}
