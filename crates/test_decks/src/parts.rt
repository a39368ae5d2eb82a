//! Parts that stand in several decks, and in many listings.

/// A problem down to the head of its columns, with an objective and a row that has a lower limit.
pub const ONE_DEMAND: &[u8] = b"NAME          T
ROWS
 N  COST
 G  LOW
COLUMNS
";

/// What SOLUTION shows of a best plan before its rows.
pub const PLAN_ROWS: &[u8] = b"SOLUTION OPTIMAL
SECTION 1 - ROWS
NUMBER ROW AT ACTIVITY SLACK LOWER UPPER DUAL
";

/// What it shows between the rows and the columns.
pub const PLAN_COLUMNS: &[u8] = b"SECTION 2 - COLUMNS
NUMBER COLUMN AT ACTIVITY COST LOWER UPPER REDUCED
";
