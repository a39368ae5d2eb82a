// The places of new rows and columns.
ghost use Rattle.std.specs.Prelude.{◌≡◌, min, length};
ghost use Rattle.problem_definitions.specs.Problem.{group_names};
ghost use Rattle.revise_edits.specs.Summary.{place_among, row_place_among};

use crate::under::{UnderAction, place_for};
use named_problem::{Groups, Rows};
use revise_definitions::Action;

/// Where the next new row goes: to their end, if its place is further on.
pub fn next_row_place(action: Action, under: &UnderAction, rows: &Rows) -> usize
    ensures { result ≡ min (row_place_among action under.now rows.now) (length rows.now) }
{
    let anchor = under.anchor();
    let number = rows.number_of(&anchor);
    place_for(action, &anchor, under.there(), rows.len(), number)
}

/// Where the next new column goes: to their end, if its place is further on.
pub fn next_column_place(action: Action, under: &UnderAction, columns: &Groups) -> usize
    ensures { result ≡ min
        (place_among action under.now.anchor (length under.now.names) (group_names columns.now))
        (length columns.now) }
{
    let anchor = under.anchor();
    let number = columns.number_of(&anchor);
    place_for(action, &anchor, under.name_count(), columns.len(), number)
}
