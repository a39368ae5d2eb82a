// How the walk ends.

/// How the walk along a listing ends. A slice is what is left of the listing where what is due begins.
#[derive(Clone, Copy, Debug)]
pub enum Found<'a> {
    /// The listing is attested, with so many reports.
    Attested(u32),
    /// What is due here isn't right.
    Wrong(&'a [u8]),
    /// What stands here can't be attested.
    Open(&'a [u8]),
    /// An operation of the test of what is due here is refused.
    Unchecked(&'a [u8]),
}
