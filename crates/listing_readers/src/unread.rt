// Why something isn't read.

use thiserror::Error;

/// Why something isn't read.
#[derive(Clone, Copy, Debug, PartialEq, Eq, Error)]
pub enum Unread {
    /// It isn't there.
    #[error("it isn't there")]
    Absent,
    /// There is no memory.
    #[error("no memory")]
    NoMemory,
}
