//! Why the dual method stops.

use bounded_primal::PrimalStop;
use lp_model::{NoMemory, Stop};
use thiserror::Error;

/// Why a call of the dual method stopped: the price of this nonbasic is wrong, or its path stopped.
#[derive(Clone, Copy, Debug, PartialEq, Eq, Error)]
pub enum DualStop {
    #[error("the price of variable {0} is wrong")]
    NotDualFeasible(u32),
    #[error("{0}")]
    Path(PrimalStop),
}

impl From<NoMemory> for DualStop {
    ghost use Rattle.std.specs.Prelude.{◌≡◌};
    ghost use Rattle.bounded_primal.specs.declared.moves.PrimalStop.TheVariants as path_stops;
    ghost use Rattle.bounded_dual.specs.declared.moves.DualStop.TheVariants as stops;

    ghost from_gives = { λ _ stop. stop ≡ stops.Path path_stops.NoMemory };

    fn from(_refused: NoMemory) -> DualStop {
        DualStop::Path(PrimalStop::NoMemory)
    }
}

impl From<Stop> for DualStop {
    ghost use Rattle.std.specs.Prelude.{◌≡◌};
    ghost use Rattle.bounded_dual.specs.Stops.{dual_stop_of};

    ghost from_gives = { λ stop dual. dual ≡ dual_stop_of stop };

    fn from(stop: Stop) -> DualStop {
        DualStop::Path(PrimalStop::from(stop))
    }
}
