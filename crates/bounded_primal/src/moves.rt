//! What the solving calls answer.

use frac128::Frac;
use lp_model::{Evidence, NoMemory, SparseVector, Status, Stop};
use thiserror::Error;

/// Why a solving call stopped: its limit of steps, a number that was too large, as the evidence shows, or no memory.
#[derive(Clone, Copy, Debug, PartialEq, Eq, Error)]
pub enum PrimalStop {
    #[error("the limit of steps is reached")]
    Limit,
    #[error("formula {}: {}", .0.formula, .0.refused)]
    Overflow(Evidence),
    #[error("there is no memory")]
    NoMemory,
}

impl From<NoMemory> for PrimalStop {
    ghost use Rattle.std.specs.Prelude.{◌≡◌};
    ghost use Rattle.bounded_primal.specs.declared.moves.PrimalStop.TheVariants as stops;

    ghost from_gives = { λ _ stop. stop ≡ stops.NoMemory };

    fn from(_refused: NoMemory) -> PrimalStop {
        PrimalStop::NoMemory
    }
}

impl From<Stop> for PrimalStop {
    ghost use Rattle.std.specs.Prelude.{◌≡◌};
    ghost use Rattle.bounded_primal.specs.Stops.{primal_stop_of};

    ghost from_gives = { λ stop primal. primal ≡ primal_stop_of stop };

    fn from(stop: Stop) -> PrimalStop {
        match stop {
            Stop::Overflow(evidence) => PrimalStop::Overflow(evidence),
            Stop::NoMemory => PrimalStop::NoMemory,
        }
    }
}

/// What ends a move: the variable that stops it, which a ratio test finds; or the basic that the move brings back to a limit, in the
/// first phase or in a dual step, which no ratio test finds. `step` is the change of what moves, negative where it moves down, and `to`
/// is where `p` comes to stand.
#[derive(Clone, Copy, Debug, PartialEq, Eq)]
pub struct BlockingVariable {
    pub p: u32,
    pub step: Frac,
    pub to: Status,
}

/// A step of a path: `q` moves along its direction until `by.p` stops it.
#[derive(Clone, Copy)]
pub struct Move<'a> {
    pub q: u32,
    pub by: &'a BlockingVariable,
    pub direction: &'a SparseVector,
}
