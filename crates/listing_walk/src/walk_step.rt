// A step of the walk.

use crate::found::Found;
use listing_words::Number;

/// Where a statement leads the walk.
#[derive(Drop)]
pub enum WalkStep<'a> {
    /// To the next statement.
    Next,
    /// To the next statement, with this value in XPARAM, which is more than the cell holds.
    Leaves(Number<'a>),
    /// To the statement with this number, from 1, or to the program's end.
    Jump(u32),
    /// To its end.
    Finds(Found<'a>),
}

/// Where the statement at a position leads the walk.
#[derive(Clone, Copy, Debug)]
pub enum AfterStep<'a> {
    /// To the statement with this number, from 1, or to the program's end.
    Goes(u32),
    /// To its end.
    Finds(Found<'a>),
}
