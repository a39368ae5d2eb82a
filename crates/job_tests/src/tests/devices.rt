// Devices that fail.
ghost use Rattle.std.specs.Prelude.{◌<◌};

use super::jobs::{Answer, Call, answer_from, answer_to};
use super::plans::SOLVED;
use super::punched::DECKS;
use super::rows::Solved;
use job_devices::MemorySource;
use std::alloc::Global;
use std::test::Fail;

const READ_FAULT: &[u8] = b"STOP 24 READ FAULT\n";

// No job of these tests makes so many reads, nor so many writes.
const MANY: u64 = 10_000;

#[test]
fn a_read_that_fails_ends_a_job(rt: HostRuntime) -> Result<(), Fail> {
    let cases: [(&[u64], &[u64], u8, &[u8]); 3] = [
        (&[2], &[], 24, READ_FAULT),
        (&[2], &[1], 25, b""),
        (&[1], &[1], 25, b""),
    ];
    let job = SOLVED[0].job.concat(rt.alloc())?;
    for (failing_reads, failing_writes, status, listing) in cases {
        let call = Call {
            words: &[],
            job: &job,
            failing_reads,
            failing_writes,
            failing_punches: &[],
        };
        assert!(rt; answer_to(rt.alloc(), &call)?.is(status, listing));
    }
    Ok(())
}

// A row that comes in pieces, of whose reads these fail.
fn in_pieces(alloc: Global, row: &Solved, piece: usize, failing: &[u64]) -> Result<Answer, Fail>
    requires { 0 < piece }
{
    let job = row.job.concat(alloc)?;
    let source = MemorySource::in_pieces(alloc, &job, failing, piece)?;
    answer_from(alloc, &[], source, &[], &[])
}

// How many reads a row makes that comes in pieces: with each of them failing the job ends with a fault of the read, and with the
// next one it goes on as if none had failed. None where it is answered otherwise.
fn reads_made(alloc: Global, row: &Solved, piece: usize) -> Result<Option<u64>, Fail>
    requires { 0 < piece }
{
    let listing = row.listing(alloc)?;
    for made in 0..MANY {
        let answer = in_pieces(alloc, row, piece, &[made + 1])?;
        if answer.is(0, &listing) {
            return Ok(Some(made));
        }
        if !answer.is(24, READ_FAULT) {
            return Ok(None);
        }
    }
    Ok(None)
}

// There is a read for each piece, and one that finds the end.
#[test]
fn each_read_of_a_job_may_fail(rt: HostRuntime) -> Result<(), Fail> {
    let plan = &SOLVED[0];
    assert_eq!(rt; plan.job.concat(rt.alloc())?.len(), 607);
    assert_eq!(rt; reads_made(rt.alloc(), plan, 1)?, Some(608));
    assert_eq!(rt; reads_made(rt.alloc(), plan, 7)?, Some(88));
    assert_eq!(rt; reads_made(rt.alloc(), plan, 100)?, Some(8));
    Ok(())
}

// The job of these parts, of whose writes to the print and to the punch these fail.
fn where_writes_fail(
    alloc: Global,
    parts: &[&[u8]],
    failing_writes: &[u64],
    failing_punches: &[u64],
) -> Result<Answer, Fail> {
    let job = parts.concat(alloc)?;
    let source = MemorySource::new(alloc, &job, &[])?;
    answer_from(alloc, &[], source, failing_writes, failing_punches)
}

// How many writes a row makes: with each of them failing the listing is cut short, and with the next one it is whole. None where
// it is answered otherwise.
fn writes_made(alloc: Global, row: &Solved) -> Result<Option<u64>, Fail> {
    let listing = row.listing(alloc)?;
    for made in 0..MANY {
        let answer = where_writes_fail(alloc, row.job, &[made + 1], &[])?;
        if answer.is(0, &listing) {
            return Ok(Some(made));
        }
        if !is_cut_short(&listing, &answer) {
            return Ok(None);
        }
    }
    Ok(None)
}

// Whether a fault of the print has left a prefix of a listing, and less than all of it.
fn is_cut_short(listing: &[u8], answer: &Answer) -> bool {
    let printed = answer.print.bytes();
    answer.status == 25 && listing.starts_with(printed) && printed.len() < listing.len()
}

#[test]
fn each_write_of_a_listing_may_fail(rt: HostRuntime) -> Result<(), Fail> {
    assert!(rt; writes_made(rt.alloc(), &SOLVED[0])?.is_some());
    Ok(())
}

// The deck of this job is punched in 17 writes: seven cards in two, the text and the line feed, and three in one.
#[test]
fn a_punch_that_fails_breaks_the_deck_off(rt: HostRuntime) -> Result<(), Fail> {
    let row = &DECKS[0];
    let deck = row.cards.concat(rt.alloc())?;
    for write in 1..18 {
        let answer = where_writes_fail(rt.alloc(), row.job, &[], &[write])?;
        let listing = b"CONVERT ONE      ROWS 2 COLUMNS 1 ENTRIES 2\nSTOP 26 PUNCH FAULT\n";
        let cards = answer.punch.bytes();
        assert!(rt; answer.is_punched(26, listing, cards));
        assert!(rt; deck.starts_with(cards) && cards.len() < deck.len());
    }
    let unbroken = where_writes_fail(rt.alloc(), row.job, &[], &[18])?;
    assert!(rt; unbroken.is_punched(row.status, row.listing, &deck));
    Ok(())
}

// The line of the conversion is printed in eleven writes; the next one is that of the stop.
#[test]
fn a_print_may_fail_after_the_punch(rt: HostRuntime) -> Result<(), Fail> {
    let answer = where_writes_fail(rt.alloc(), DECKS[0].job, &[12], &[1])?;
    let listing = b"CONVERT ONE      ROWS 2 COLUMNS 1 ENTRIES 2\n";
    assert!(rt; answer.is_punched(25, listing, b""));
    Ok(())
}

#[test]
fn a_print_that_fails_after_a_deck_leaves_it_whole(rt: HostRuntime) -> Result<(), Fail> {
    let row = &DECKS[0];
    let answer = where_writes_fail(rt.alloc(), row.job, &[13], &[])?;
    let listing = b"CONVERT ONE      ROWS 2 COLUMNS 1 ENTRIES 2\nBCDOUT  ";
    assert!(rt; answer.is_punched(25, listing, &row.cards.concat(rt.alloc())?));
    Ok(())
}
