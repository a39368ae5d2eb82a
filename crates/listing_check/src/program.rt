// The program of a checker.

use crate::check::check_listing;
use crate::status::CheckStatus;
use command_line::given_words;
use job_devices::{ListingFile, StreamSink, StreamSource};
use listing_claims::Checks;
use std::alloc::AllocError;
use std::io;
use std::process::ExitCode;

// The status of the check that the program is started for.
fn checked<T: Checks>(rt: &HostRuntime) -> Result<CheckStatus, AllocError> {
    let alloc = rt.alloc();
    let words = given_words(rt)?;
    let mut job = StreamSource::new(rt.reader());
    let mut listing = ListingFile::new(rt);
    let mut print = StreamSink::new(io::writer(rt));
    Ok(check_listing::<T, _, _, _>(alloc, &words, &mut job, &mut listing, &mut print))
}

/// Reads a job on standard input and its listing in the file `LISTING` of the present folder, and prints on standard output what the
/// listing is found to be by a checker. Gives the exit code.
pub fn run_checker<T: Checks>(rt: &HostRuntime) -> ExitCode {
    let status = checked::<T>(rt).unwrap_or(CheckStatus::Memory);
    ExitCode::from(status.code())
}
