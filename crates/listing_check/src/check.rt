// The top call.
ghost use Rattle.std.specs.Prelude.{◌≡◌, ◌≢◌, ◌<◌, List, ℕ, Some, length, take, ◌+◌};
ghost use Rattle.std.specs.Io.KnownBytes.{Appends};
ghost use Rattle.job_devices.specs.Causes.{Rose};
ghost use Rattle.job_devices.specs.Reading.{ReadsUpTo, ReadsWhole};
ghost use Rattle.card_reader.specs.Reading.{ReadsJob, ReadsPrefix, read_limit};
ghost use Rattle.job_program.specs.Stops.{ReportsEarlyStop};
ghost use Rattle.walk_laws.specs.Proved.{IsTrueListing};
ghost use Rattle.listing_check.specs.Statuses.{code_of};
ghost use Rattle.listing_check.specs.Devices.{IsReported, IsStill, EndsWith};
ghost use Rattle.listing_check.specs.Starting.{IsStartOf, IsWhole};
ghost use Rattle.listing_check.specs.Answer.{IsCheckAnswer, words_text};
ghost use Rattle.listing_check.specs.Reads.{Tells};
ghost use Rattle.listing_check.specs.Causes.{HasCheckCause};
ghost use Rattle.walk_definitions.specs.Found.{max_listing};

use crate::line::{end_found, end_with};
use crate::start::{Start, find};
use crate::status::CheckStatus;
use job_devices::{NoMemory, Sink, Source, SourceStop, read_up_to};
use job_program::{EarlyStop, prepare};
use listing_claims::Checks;
use std::alloc::Global;
use walk_laws::attested_law;

// The most bytes that a listing may have.
const MAX_LISTING: usize = 64_000_000;

// Prints what a listing is found to be that is read up to one byte more than it may have.
fn check_bytes<T: Checks, P: Sink>(
    alloc: Global,
    start: &Start,
    listing: &[u8],
    print: &mut P,
) -> CheckStatus
    ensures { Tells T.checker (record {
      job_fails = ⊥;
      job_quiet = Unit {0};
      job_read = Unit {0};
      listing_fails = ⊥;
      listing_quiet = Unit {0};
      listing_read = Unit {0};
      listing_same = ⊥;
      is_job = λ bytes. IsStartOf bytes start.now;
      is_listing = λ lines. listing.now ≡ take (max_listing + 1) lines;
    }) (P.taken print.old) (P.taken print.new) result }
{
    if listing.len() > MAX_LISTING {
        return end_with(print, b"LONG LISTING\n", CheckStatus::Long);
    }
    match find::<T>(alloc, start, listing) {
        Ok(found) => end_found(print, listing, &found),
        Err(NoMemory) => CheckStatus::Memory,
    }
}

// Reads the listing, and prints what it is found to be.
fn check_read<T: Checks, L: Source, P: Sink>(
    alloc: Global,
    start: &Start,
    listing: &mut L,
    print: &mut P,
) -> CheckStatus
    ensures tells { Tells T.checker (record {
      job_fails = ⊥;
      job_quiet = Unit {0};
      job_read = Unit {0};
      listing_fails = Rose (L.given listing.old).faults (L.given listing.new).faults;
      listing_quiet = (L.given listing.new).faults ≡ (L.given listing.old).faults;
      listing_read = ReadsWhole (max_listing + 1) (L.given listing.old).left
          (L.given listing.new).left;
      listing_same = ⊥;
      is_job = λ bytes. IsStartOf bytes start.now;
      is_listing = λ lines. (L.given listing.old).left ≡ Some lines;
    }) (P.taken print.old) (P.taken print.new) result }
    ensures no_further { ReadsUpTo (max_listing + 1) (L.given listing.old).left
        (L.given listing.new).left }
{
    match read_up_to(alloc, listing, MAX_LISTING + 1) {
        Ok(bytes) => check_bytes::<T, P>(alloc, start, &bytes, print),
        Err(SourceStop::Failed) => end_with(
            print,
            b"STOP 27 LISTING FAULT\n",
            CheckStatus::ListingFault,
        ),
        Err(SourceStop::NoMemory) => CheckStatus::Memory,
    }
}

// Goes on where the program of a job isn't to be run: the listing of a job that is refused has its one end.
fn check_stopped<T: Checks, L: Source, P: Sink>(
    alloc: Global,
    stop: EarlyStop,
    listing: &mut L,
    print: &mut P,
) -> CheckStatus
    requires { stop ≢ EarlyStop.Words }
    ensures tells { Tells T.checker (record {
      job_fails = stop ≡ EarlyStop.ReadFault;
      job_quiet = stop ≢ EarlyStop.ReadFault;
      job_read = IsWhole stop;
      listing_fails = Rose (L.given listing.old).faults (L.given listing.new).faults;
      listing_quiet = (L.given listing.new).faults ≡ (L.given listing.old).faults;
      listing_read = ReadsWhole (max_listing + 1) (L.given listing.old).left
          (L.given listing.new).left;
      listing_same = listing.new ≡ listing.old;
      is_job = λ bytes. ReportsEarlyStop (Some bytes) stop;
      is_listing = λ lines. (L.given listing.old).left ≡ Some lines;
    }) (P.taken print.old) (P.taken print.new) result }
    ensures no_further { ReadsUpTo (max_listing + 1) (L.given listing.old).left
        (L.given listing.new).left }
{
    match stop {
        EarlyStop::ReadFault => end_with(print, b"STOP 24 READ FAULT\n", CheckStatus::ReadFault),
        EarlyStop::Card(fault) => {
            check_read::<T, L, P>(alloc, &Start::Card(fault), listing, print)
        }
        EarlyStop::Control(fault) => {
            check_read::<T, L, P>(alloc, &Start::Control(fault), listing, print)
        }
        EarlyStop::Words | EarlyStop::Memory => CheckStatus::Memory,
    }
}

// Reads the job and the listing, and prints what the listing is found to be.
fn check_job<T: Checks, S: Source, L: Source, P: Sink>(
    alloc: Global,
    job: &mut S,
    listing: &mut L,
    print: &mut P,
) -> CheckStatus
    ensures tells { Tells T.checker (record {
      job_fails = Rose (S.given job.old).faults (S.given job.new).faults;
      job_quiet = (S.given job.new).faults ≡ (S.given job.old).faults;
      job_read = ReadsJob (S.given job.old).left (S.given job.new).left;
      listing_fails = Rose (L.given listing.old).faults (L.given listing.new).faults;
      listing_quiet = (L.given listing.new).faults ≡ (L.given listing.old).faults;
      listing_read = ReadsWhole (max_listing + 1) (L.given listing.old).left
          (L.given listing.new).left;
      listing_same = listing.new ≡ listing.old;
      is_job = λ bytes. (S.given job.old).left ≡ Some bytes;
      is_listing = λ lines. (L.given listing.old).left ≡ Some lines;
    }) (P.taken print.old) (P.taken print.new) result }
    ensures job { ReadsPrefix (S.given job.old).left (S.given job.new).left }
    ensures listing { ReadsUpTo (max_listing + 1) (L.given listing.old).left
        (L.given listing.new).left }
{
    match prepare(alloc, job) {
        Ok(prepared) => { check_read::<T, L, P>(alloc, &Start::Program(prepared), listing, print) }
        Err(stop) => check_stopped::<T, L, P>(alloc, stop, listing, print),
    }
}

/// Attests the listing of a job by the tests of a checker, or says at which line it can't.
///
/// The words are those after the program's name, and there may be none: nothing is read then. Else the job is read to its end, or as far
/// as byte 16,400,001, and then the listing, as far as byte 64,000,001. One line is printed, which says what the listing is found to be
/// where the walk along the job's program ends; and the status says it too. After a fault of the print, or where the print runs out of
/// memory, nothing more is printed. Memory may run out at any time, which ends a check.
pub fn check_listing<T: Checks, S: Source, L: Source, P: Sink>(
    alloc: Global,
    words: &[String],
    job: &mut S,
    listing: &mut L,
    print: &mut P,
) -> CheckStatus
    // The theorem. An attested listing is that of a run of the job's program in which the answers of linear programming are those that
    // passed their tests, and each report says the truth of the state in which it was made: a SOLUTION OPTIMAL is a feasible point
    // such that none is better, with prices that prove it; a verdict holds; and what is printed of a parametric run is right at
    // every value of the parameter.
    ensures truth { result ≡ CheckStatus.Attested → (bytes lines : List ℕ) →
        (S.given job.old).left ≡ Some bytes → (L.given listing.old).left ≡ Some lines →
        IsTrueListing T.checker bytes lines }

    // Which status, and what stands. Without words, and unless a read or the print fails or memory runs out, the line and the status are
    // those of what the listing is found to be, and of each job and each listing one thing is found.
    ensures answer { (bytes lines : List ℕ) → length words.now ≡ 0 →
        (S.given job.old).left ≡ Some bytes → (L.given listing.old).left ≡ Some lines →
        IsCheckAnswer T.checker bytes lines
        (record {
          job = Rose (S.given job.old).faults (S.given job.new).faults;
          listing = Rose (L.given listing.old).faults (L.given listing.new).faults;
          print = Rose (P.taken print.old).faults (P.taken print.new).faults;
          memory = Rose (P.taken print.old).refusals (P.taken print.new).refusals;
        })
        (code_of result)
        (Appends (P.taken print.old).written (P.taken print.new).written) }

    // Words are refused, and then nothing is read.
    ensures words { 0 < length words.now →
        EndsWith (P.taken print.old) (P.taken print.new) words_text CheckStatus.Words result ×
        (job.new ≡ job.old) × (listing.new ≡ listing.old) }

    // Why, also where the devices don't tell their bytes.
    ensures cause { HasCheckCause
        (record {
          words = length words.now;
          job_fails = Rose (S.given job.old).faults (S.given job.new).faults;
          job_read = ReadsJob (S.given job.old).left (S.given job.new).left;
          listing_fails = Rose (L.given listing.old).faults (L.given listing.new).faults;
          listing_read = ReadsWhole (max_listing + 1) (L.given listing.old).left
              (L.given listing.new).left;
          print_fails = Rose (P.taken print.old).faults (P.taken print.new).faults;
        })
        result }

    // What the status reports: a fault of the print by 25, and that it ran out of memory by 28; a fault of a read of the job by 24 and
    // one of the listing by 27, unless the print stops as well and the status is that of its stop.
    ensures reported { IsReported
        (record {
          job = (S.given job.old).faults;
          listing = (L.given listing.old).faults;
          print = (P.taken print.old).faults;
          print_memory = (P.taken print.old).refusals;
        })
        (record {
          job = (S.given job.new).faults;
          listing = (L.given listing.new).faults;
          print = (P.taken print.new).faults;
          print_memory = (P.taken print.new).refusals;
        })
        (code_of result) }

    // After a fault of the print, or where it runs out of memory, nothing more is written to it.
    ensures still { IsStill (P.taken print.old) (P.taken print.new) }

    // How far the job and the listing are read, and what stays the same.
    ensures no_further { ReadsUpTo read_limit (S.given job.old).left (S.given job.new).left ×
        ReadsUpTo (max_listing + 1) (L.given listing.old).left (L.given listing.new).left }
    ensures unread { result ≡ CheckStatus.ReadFault → listing.new ≡ listing.old }
{
    attested_law();
    if words.is_empty() {
        return check_job::<T, S, L, P>(alloc, job, listing, print);
    }
    end_with(print, b"STOP 4 WORDS\n", CheckStatus::Words)
}
