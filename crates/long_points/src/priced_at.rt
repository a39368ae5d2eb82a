// A point with prices.
ghost use Rattle.std.specs.Prelude.{◌≡◌, length};
ghost use Rattle.lp_definitions.specs.LinearProgram.{size};

use long_programs::SpreadAt;
use long_vectors::Column;

/// A point beside the linear programs of a run, with prices of the variables.
#[derive(Clone, Copy)]
pub struct PricedAt<'a> {
    pub point: SpreadAt<'a>,
    pub prices: &'a Column,
    pub ghost price_places: { length prices.now.tops.items ≡ size point.program.lp.now.matrix },
}
