// Why a selection stops.

use lp_definitions::Evidence;
use selection_definitions::SelectionFault;
use thiserror::Error;

/// Why there is no linear program. A fault of the choice comes first.
#[derive(Clone, Copy, Debug, PartialEq, Eq, Error)]
pub enum SelectStop {
    /// The choice has a fault.
    #[error("{0}")]
    Fault(SelectionFault),
    /// A row's right-hand side with the magnitude of its range is too large a number, or a product or a sum of a combination is, as the
    /// evidence shows.
    #[error("formula {}: {}", .0.formula, .0.refused)]
    Overflow(Evidence),
    /// There was no memory.
    #[error("there is no memory")]
    NoMemory,
}
