// Where a deck stands.

/// A deck of a job: its cards from the first to the last of these numbers, each from 1.
#[derive(Clone, Copy, Debug, PartialEq, Eq)]
pub struct Deck {
    /// Its first card, which isn't skipped.
    pub first: u32,
    /// Its last card: an ENDATA card, or the last of the job.
    pub last: u32,
}
