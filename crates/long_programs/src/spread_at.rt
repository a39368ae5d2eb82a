// A vector beside the linear programs of a run.
ghost use Rattle.std.specs.Prelude.{◌≡◌, length};
ghost use Rattle.lp_definitions.specs.LinearProgram.{size};
ghost use Rattle.long_programs.specs.Programs.{IsChangeIn, IsChangeIn-prop};

use crate::programs::ProgramAt;
use crate::spreads::Spread;

/// The linear programs of a run, and a vector of values of their variables, over whose denominator the parameter is a whole number too.
#[derive(Clone, Copy)]
pub struct SpreadAt<'a> {
    pub program: ProgramAt<'a>,
    pub spread: &'a Spread,
    pub ghost change: { IsChangeIn program.lp.now program.change } by { IsChangeIn-prop program.lp.now program.change },
    pub ghost places: { length spread.now.column.tops.items ≡ size program.lp.now.matrix },
}
