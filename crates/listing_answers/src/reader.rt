// How an answer is read.

use listing_claims::By;
use listing_tables::Sheet;
use lp_model::NoMemory;
use std::alloc::Global;

/// By what an answer is read: the problem and its linear program, how the words of numbers are taken, and what makes their vectors.
#[derive(Clone, Copy)]
pub struct Reader<'a> {
    pub alloc: Global,
    pub by: By,
    pub sheet: Sheet<'a>,
}

/// What is read, where it is there.
pub type Read<X> = Result<Option<X>, NoMemory>;
