// A linear program of a run.
ghost use Rattle.long_programs.specs.Programs.{IsChangeIn, IsChangeIn-prop};

use crate::programs::ProgramAt;
use long_vectors::Value;

/// The linear programs of a run, and the value theta of the parameter of the one that is meant.
#[derive(Clone, Copy)]
pub struct AtTheta<'a> {
    pub program: ProgramAt<'a>,
    pub theta: &'a Value,
    pub ghost change: { IsChangeIn program.lp.now program.change } by { IsChangeIn-prop program.lp.now program.change },
}
