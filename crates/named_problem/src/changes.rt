// What a card does to the items of a column or of a set.

use problem_definitions::BoundKind;

/// What a card does to the entries of a column, or to the items of a set of right-hand sides or of ranges.
#[derive(Clone, Copy, Debug, PartialEq, Eq)]
pub enum EntryChange {
    /// Its entries take the places of those on their rows, or go to the end.
    Put,
    /// Its entries go to the end.
    Append,
    /// The entry on the row in field 3 goes.
    Without,
}

/// What a card does to the bounds of a set.
#[derive(Clone, Copy, Debug, PartialEq, Eq)]
pub enum BoundChange {
    /// Its bound, of this type, goes to the end, and those that touch its ends go.
    Put(BoundKind),
    /// The bounds on the column in field 3 go.
    Without,
}
