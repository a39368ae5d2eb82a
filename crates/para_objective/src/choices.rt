//! How values count.

ghost use Rattle.std.specs.Prelude.{◌≡◌};
ghost use Rattle.lp_definitions.specs.LinearProgram.{for_min};

use frac128::Frac;
use lp_model::Sense;

/// The value as it counts where less is better.
pub fn worth(sense: Sense, value: Frac) -> Frac
    ensures { result ≡ for_min sense value }
{
    match sense {
        Sense::Min => value,
        Sense::Max => value.neg(),
    }
}
