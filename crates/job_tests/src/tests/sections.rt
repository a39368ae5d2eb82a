// Sections of the decks that are written out of free decks and free revisions.

/// The NAME card of the problem ONE.
pub const NAME_ONE: &[u8] = b"NAME          ONE\n";

/// The NAME card of the problem that it is revised to.
pub const NAME_NEXT: &[u8] = b"NAME          NEXT\n";

/// An objective and a row.
pub const ROWS: &[u8] = b"ROWS\n N  COST\n G  LOW\n";

/// A column.
pub const COLUMNS: &[u8] = b"COLUMNS\n    X         COST      1\n    X         LOW       1\n";

/// A right-hand side, in a set without a name.
pub const RHS: &[u8] = b"RHS\n              LOW       1\n";

/// A range of the row.
pub const RANGES: &[u8] = b"RANGES\n    R         LOW       2\n";

/// An upper bound of the column.
pub const BOUNDS: &[u8] = b"BOUNDS\n UP BND       X         9\n";
