// The top call.
ghost use Rattle.std.specs.Prelude.{◌≡◌, ◌≢◌, ◌≤◌, List, ℕ, None, Some, IfOk, map, string_bytes};
ghost use Rattle.job_devices.specs.States.{untold_source};
ghost use Rattle.job_devices.specs.Causes.{Rose};
ghost use Rattle.job_devices.specs.Memory.{sure_left};
ghost use Rattle.card_reader.specs.Reading.{ReadsJob};
ghost use Rattle.answer_definitions.specs.Real.{linear_programming};
ghost use Rattle.fitting_answers.specs.Real.{linear_programming_of_128_bits};
ghost use Rattle.deck_definitions.specs.Transport.{made_job};
ghost use Rattle.run_definitions.specs.Answer.{Job, Made, IsAnswered};
ghost use Rattle.one_run_laws.specs.Laws.{IsAnsweredOnce};
ghost use Rattle.soundness_laws.specs.Headline.{IsTrueAnswer};
ghost use Rattle.determinism_laws.specs.Stands.{StandsAfter};
ghost use Rattle.command_line.specs.Sizes.{max_size};
ghost use Rattle.command_line.specs.Requests.{HasSize};
ghost use Rattle.command_line.specs.Requests as requests;
ghost use Rattle.control_run.specs.Statuses.{code_of};
ghost use Rattle.mps_cli.specs.Asked.{IsGiven, OfAsked};
ghost use Rattle.mps_cli.specs.Causes.{IsPunched};
ghost use Rattle.mps_cli.specs.Devices.{devices, failures, PrintGains, PunchGains, IsAccounted};

use crate::end::end_job;
use command_line::{Request, request_of};
use control_run::{RunEngine, RunStatus, run_on};
use generated_job::make_job;
use job_devices::{NoMemory, Sink, Source, SureSource};
use job_program::{EarlyStop, prepare};
use std::alloc::Global;

// Runs the job of a source.
fn run_source<S: Source, P: Sink, U: Sink>(
    alloc: Global,
    job: &mut S,
    print: &mut P,
    punch: &mut U,
) -> RunStatus
    ensures answer { (given : Job) (bytes : List ℕ) →
        IsGiven (S.given job.old).left (Rose (S.given job.old).faults (S.given job.new).faults)
        given bytes →
        let before = devices (S.given job.old) (P.taken print.old) (U.taken punch.old) in
        let after = devices (S.given job.new) (P.taken print.new) (U.taken punch.new) in
        IsAnswered linear_programming_of_128_bits given (failures before after) (code_of result)
        (PrintGains before after) (PunchGains before after) }
    ensures accounted { IsAccounted (Some Request.Read)
        (devices (S.given job.old) (P.taken print.old) (U.taken punch.old))
        (devices (S.given job.new) (P.taken print.new) (U.taken punch.new)) result }
    ensures punch { IsPunched (Some Request.Read) (S.given job.old).left
        (ReadsJob (S.given job.old).left (S.given job.new).left) (punch.new ≡ punch.old) result }
{
    match prepare(alloc, job) {
        Ok(prepared) => {
            run_on::<RunEngine, P, U>(alloc, &prepared.program, &prepared.cards, print, punch)
        }
        Err(stop) => end_job(print, stop),
    }
}

// A source of the generated job of a size.
fn made_source(alloc: Global, size: u32) -> Result<SureSource, NoMemory>
    requires least { 1 ≤ size }
    requires most { size ≤ max_size }
    ensures { IfOk result (λ source. sure_left source ≡ made_job size) }
{
    let job = make_job(alloc, size)?;
    SureSource::new(alloc, &job)
}

// Runs the generated job of a size. No source is read: it is as one that tells nothing and whose reads never fail.
fn run_made<P: Sink, U: Sink>(alloc: Global, size: u32, print: &mut P, punch: &mut U) -> RunStatus
    requires least { 1 ≤ size }
    requires most { size ≤ max_size }
    ensures answer { let before = devices (untold_source 0)
        (P.taken print.old) (U.taken punch.old) in
        let after = devices (untold_source 0) (P.taken print.new) (U.taken punch.new) in
        IsAnswered linear_programming_of_128_bits (Made (made_job size)) (failures before after)
        (code_of result) (PrintGains before after) (PunchGains before after) }
    ensures accounted { IsAccounted (Some (Request.Make size))
        (devices (untold_source 0) (P.taken print.old) (U.taken punch.old))
        (devices (untold_source 0) (P.taken print.new) (U.taken punch.new)) result }
    ensures punch { IsPunched (Some (Request.Make size)) None (Unit {0}) (punch.new ≡ punch.old)
        result }
{
    match made_source(alloc, size) {
        Ok(mut job) => run_source(alloc, &mut job, print, punch),
        Err(NoMemory) => end_job(print, EarlyStop::Memory),
    }
}

// Runs the job that is asked for.
fn run_request<S: Source, P: Sink, U: Sink>(
    alloc: Global,
    request: Request,
    job: &mut S,
    print: &mut P,
    punch: &mut U,
) -> RunStatus
    requires { HasSize request }
    ensures sizes { OfAsked (IsAnswered linear_programming_of_128_bits) (Some request)
        (devices (S.given job.old) (P.taken print.old) (U.taken punch.old))
        (devices (S.given job.new) (P.taken print.new) (U.taken punch.new)) result }
    ensures accounted { IsAccounted (Some request)
        (devices (S.given job.old) (P.taken print.old) (U.taken punch.old))
        (devices (S.given job.new) (P.taken print.new) (U.taken punch.new)) result }
    ensures unread { request ≢ Request.Read → job.new ≡ job.old }
    ensures punch { IsPunched (Some request) (S.given job.old).left
        (ReadsJob (S.given job.old).left (S.given job.new).left) (punch.new ≡ punch.old) result }
{
    match request {
        Request::Read => run_source(alloc, job, print, punch),
        Request::Make(size) => run_made(alloc, size, print, punch),
    }
}

/// Runs a job: reads it, compiles its control program, runs it, prints the listing and punches the decks, and answers how the job
/// ended.
///
/// The words are those after the program's name. Without words the job is read to its end, or as far as byte 16,400,001.
/// With `--make N` or `--make=N`, where N is a whole number from 1 to 60, nothing is read, and the generated job of this
/// size is run. All other words are refused, and nothing is read.
///
/// After a fault of the print, or where the print runs out of memory, nothing more is printed. A deck in which a write to the punch
/// fails, or in which the punch runs out of memory, is broken off, and ends the job. The status reports each of these. Memory may
/// run out at any time, which ends a job. Each deck is punched whole before its report is printed, so a deck that was reported
/// stands whole, however the job ends.
///
/// Each job has exactly one run that doesn't stop with an overflow, and gets the status, the whole listing and all the cards of this
/// run; unless the status is 20, and the run is broken off where a number is too large, or a read, a write to the print or one to
/// the punch fails, or the status is 28. That is a free answer: no clause ties it to a refused allocation.
pub fn run_job<S: Source, P: Sink, U: Sink>(
    alloc: Global,
    words: &[String],
    job: &mut S,
    print: &mut P,
    punch: &mut U,
) -> RunStatus
    // The headline. The printed bytes are the listing of a run of this job's control program, or of its early stop; or the print
    // has stopped in a report or in the lines of an end, and all before stands with a prefix of it. Each report of this run holds
    // of the state in which it was made: a SOLUTION OPTIMAL is a feasible point such that none is better, with prices that
    // prove it; a verdict OPTIMAL has the objective of such a point; a verdict of infeasibility prints a crossed variable or a
    // ray, and one of unboundedness a feasible point with a direction, and these prove it; RANGE prints where the basis stays
    // optimal; at every value in an interval of PARAOBJ or PARARHS the printed point is best and the printed prices prove it, each
    // interval begins where the one before ended, and the last ends at the last value, or a proof for every greater value closes
    // the run; the cards of PUNCH are the deck of the present basis, and INSERT makes the basis of its deck the present one. An
    // end that reports a singular deck or a wrong price shows the dependency, or the variable. So it is wherever the words, or the
    // source, tell the job.
    ensures headline { OfAsked (IsTrueAnswer linear_programming)
        (requests.asked (map string_bytes words.now))
        (devices (S.given job.old) (P.taken print.old) (U.taken punch.old))
        (devices (S.given job.new) (P.taken print.new) (U.taken punch.new)) result }

    // The job's own run. The job has exactly one run that doesn't stop with an overflow. The status is that of its end, the print gains
    // its whole listing and the punch all its cards; or the status is 20, and what stands is a run that stops with an overflow where
    // the own run goes on, and at some moment of a run of the job evidence of an overflow holds; or a read has failed and the status
    // is 24, or the print and it is 25, or the punch and it is 26, or it is 28.
    ensures one_run { OfAsked (IsAnsweredOnce linear_programming)
        (requests.asked (map string_bytes words.now))
        (devices (S.given job.old) (P.taken print.old) (U.taken punch.old))
        (devices (S.given job.new) (P.taken print.new) (U.taken punch.new)) result }

    // The sizes of numbers. So the job is answered by a run whose answers fit: each fraction that comes of a verdict, of SOLUTION, of a
    // parametric run or of the evidence of an overflow of linear programming has 128 bits, and each count of such evidence that is
    // printed has 32. By the law `never_wrong` of own_listing_laws mps360check never finds the whole listing of such a run wrong.
    ensures sizes { OfAsked (IsAnswered linear_programming_of_128_bits)
        (requests.asked (map string_bytes words.now))
        (devices (S.given job.old) (P.taken print.old) (U.taken punch.old))
        (devices (S.given job.new) (P.taken print.new) (U.taken punch.new)) result }

    // What stands, by the status. With 0, 1, 2, 8, 10, 12, 13, 16, 17 and 20 the run of the job has this end; the whole
    // listing of the run stands, and all cards that it has punched; 8 and 13 leave their line alone, and so do 4 and 24. After
    // 26 and 28 the reports so far stand with this line, and all cards of these reports, then a prefix of the deck in hand, and no
    // more; and after 25, and where the print ran out of memory, the print has stopped in a report or in the lines of an end: all
    // that comes before stands with a prefix of this text, and the cards that are punched by then.
    ensures stands { OfAsked (λ asked failed status prints punches.
        StandsAfter linear_programming asked failed prints punches status)
        (requests.asked (map string_bytes words.now))
        (devices (S.given job.old) (P.taken print.old) (U.taken punch.old))
        (devices (S.given job.new) (P.taken print.new) (U.taken punch.new)) result }

    // What the devices have come to. Why the job ended so, also where they don't tell their bytes. What the status reports: a fault of
    // the print by 25, and that it ran out of memory by 28; a fault of a read by 24 and one of the punch by 26, and that it ran out of
    // memory by 28, unless the print stops as well and the status is that of its stop. After a fault of the print or of the punch, or
    // where one of them runs out of memory, nothing more is written to it. And how far the job is read.
    ensures accounted { IsAccounted (requests.asked (map string_bytes words.now))
        (devices (S.given job.old) (P.taken print.old) (U.taken punch.old))
        (devices (S.given job.new) (P.taken print.new) (U.taken punch.new)) result }

    // What stays the same. Nothing is punched but in the run of the job's program.
    ensures unread { requests.asked (map string_bytes words.now) ≢ Some Request.Read →
        job.new ≡ job.old }
    ensures punch { IsPunched (requests.asked (map string_bytes words.now)) (S.given job.old).left
        (ReadsJob (S.given job.old).left (S.given job.new).left) (punch.new ≡ punch.old) result }
{
    match request_of(alloc, words) {
        Ok(request) => run_request(alloc, request, job, print, punch),
        Err(stop) => end_job(print, EarlyStop::from(stop)),
    }
}
