// Jobs without words over devices that don't fail.
use super::frames::first_unanswered;
use super::jobs::{answer_of, answer_of_parts};
use super::overflows::OVERFLOWS;
use super::parametric_runs::{PARAMETRIC, PARAMETRIC_CASES};
use super::plans::{PLANS, SOLVED};
use super::punched::DECKS;
use super::ranges::RANGES;
use super::rows::{DeckRow, Row, Solved};
use std::alloc::Global;
use std::test::Fail;

// Whether the job has this status and this listing.
fn is_reported(alloc: Global, row: &Row) -> Result<bool, Fail> {
    Ok(answer_of_parts(alloc, row.job)?.is(row.status, row.listing))
}

/// Whether it has this status, and a listing that begins so.
pub fn is_begun(alloc: Global, row: &Row) -> Result<bool, Fail> {
    let answer = answer_of_parts(alloc, row.job)?;
    Ok(answer.status == row.status && answer.print.bytes().starts_with(row.listing))
}

/// The name of the first of these jobs that has another status or listing.
pub fn first_unreported(alloc: Global, rows: &[Row]) -> Result<Option<&'static str>, Fail> {
    for row in rows {
        if !is_reported(alloc, row)? {
            return Ok(Some(row.name));
        }
    }
    Ok(None)
}

/// The name of the first of these jobs that shows another plan.
pub fn first_unsolved(alloc: Global, rows: &[Solved]) -> Result<Option<&'static str>, Fail> {
    for row in rows {
        if !answer_of_parts(alloc, row.job)?.is(0, &row.listing(alloc)?) {
            return Ok(Some(row.name));
        }
    }
    Ok(None)
}

/// The name of the first of these jobs that has another status or listing, or punches other cards.
pub fn first_unpunched(alloc: Global, rows: &[DeckRow]) -> Result<Option<&'static str>, Fail> {
    for row in rows {
        let cards = row.cards.concat(alloc)?;
        if !answer_of_parts(alloc, row.job)?.is_punched(row.status, row.listing, &cards) {
            return Ok(Some(row.name));
        }
    }
    Ok(None)
}

#[test]
fn jobs_have_their_listings(rt: HostRuntime) -> Result<(), Fail> {
    assert_eq!(rt; first_unsolved(rt.alloc(), &SOLVED)?, None);
    assert_eq!(rt; first_unreported(rt.alloc(), &PLANS)?, None);
    assert_eq!(rt; first_unreported(rt.alloc(), &PARAMETRIC)?, None);
    assert_eq!(rt; first_unanswered(rt.alloc(), &PARAMETRIC_CASES)?, None);
    assert_eq!(rt; first_unanswered(rt.alloc(), &RANGES)?, None);
    assert_eq!(rt; first_unpunched(rt.alloc(), &DECKS)?, None);
    Ok(())
}

#[test]
fn numbers_that_grow_too_large_end_a_run(rt: HostRuntime) -> Result<(), Fail> {
    for row in &OVERFLOWS {
        assert!(rt; is_begun(rt.alloc(), row)?, "{}", row.name);
    }
    Ok(())
}

#[test]
fn long_jobs_are_refused(rt: HostRuntime) -> Result<(), Fail> {
    for (byte, count) in [(b'\n', 200_001), (b'X', 16_400_001)] {
        let job = vec![in rt.alloc(); byte; count]?;
        assert!(rt; answer_of(rt.alloc(), &job)?.is(13, b"STOP 13 CARD FAULT 2\n"));
    }
    Ok(())
}
