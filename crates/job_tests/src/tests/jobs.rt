use job_devices::{MemorySink, MemorySource};
use mps_cli::run_job;
use std::alloc::Global;
use std::test::Fail;

/// A job with the words of its command line, and the numbers of the reads, of the writes to the print and of those to the punch
/// that fail.
#[derive(Clone, Copy)]
pub struct Call<'a> {
    pub words: &'a [String],
    pub job: &'a [u8],
    pub failing_reads: &'a [u64],
    pub failing_writes: &'a [u64],
    pub failing_punches: &'a [u64],
}

/// What a job is answered.
#[derive(Drop)]
pub struct Answer {
    pub status: u8,
    pub print: MemorySink,
    pub punch: MemorySink,
}

impl Answer {
    /// Whether a job has this status and this listing, and has punched nothing.
    pub fn is(&self, status: u8, listing: &[u8]) -> bool {
        self.is_punched(status, listing, b"")
    }

    /// Whether a job has this status and this listing, and has punched these cards.
    pub fn is_punched(&self, status: u8, listing: &[u8], cards: &[u8]) -> bool {
        self.status == status && self.print.bytes() == listing && self.punch.bytes() == cards
    }
}

/// Runs the job that a source gives, over a print and a punch whose writes with these numbers fail.
pub fn answer_from(
    alloc: Global,
    words: &[String],
    mut job: MemorySource,
    failing_writes: &[u64],
    failing_punches: &[u64],
) -> Result<Answer, Fail> {
    let mut print = MemorySink::new(alloc, failing_writes)?;
    let mut punch = MemorySink::new(alloc, failing_punches)?;
    let status = run_job(alloc, words, &mut job, &mut print, &mut punch).code();
    Ok(Answer {
        status,
        print,
        punch,
    })
}

/// Runs a job.
pub fn answer_to(alloc: Global, call: &Call) -> Result<Answer, Fail> {
    let job = MemorySource::new(alloc, call.job, call.failing_reads)?;
    answer_from(
        alloc,
        call.words,
        job,
        call.failing_writes,
        call.failing_punches,
    )
}

/// Runs a job without words over devices that don't fail.
pub fn answer_of(alloc: Global, job: &[u8]) -> Result<Answer, Fail> {
    answer_to(
        alloc,
        &Call {
            words: &[],
            job,
            failing_reads: &[],
            failing_writes: &[],
            failing_punches: &[],
        },
    )
}

/// Runs the job of these parts, without words and over devices that don't fail.
pub fn answer_of_parts(alloc: Global, parts: &[&[u8]]) -> Result<Answer, Fail> {
    let job = parts.concat(alloc)?;
    answer_of(alloc, &job)
}
