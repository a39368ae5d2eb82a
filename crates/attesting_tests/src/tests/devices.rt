// Words, and devices that fail.

use super::full::Full;
use super::listings::{Answer, answer_from};
use super::plans::STORE;
use checks_of_128_bits::Of128Bits;
use job_devices::{MemorySink, MemorySource};
use listing_check::check_listing;
use std::alloc::Global;
use std::test::Fail;

const WORDS: &[u8] = b"STOP 4 WORDS\n";

const READ_FAULT: &[u8] = b"STOP 24 READ FAULT\n";

const LISTING_FAULT: &[u8] = b"STOP 27 LISTING FAULT\n";

// The job and the listing come in pieces, of whose reads these fail.
fn in_pieces(
    alloc: Global,
    failing_job: &[u64],
    failing_listing: &[u64],
    failing_writes: &[u64],
) -> Result<Answer, Fail> {
    let plan = &STORE;
    let (job, listing) = (plan.job.concat(alloc)?, plan.text.concat(alloc)?);
    answer_from::<Of128Bits>(
        alloc,
        MemorySource::in_pieces(alloc, &job, failing_job, 100)?,
        MemorySource::in_pieces(alloc, &listing, failing_listing, 100)?,
        failing_writes,
    )
}

// A read that fails is reported, the job's before the listing's; and where the print fails as well, that is.
#[test]
fn a_read_that_fails_is_reported(rt: HostRuntime) -> Result<(), Fail> {
    let cases: [(&[u64], &[u64], &[u64], u8, &[u8]); 8] = [
        (&[1], &[], &[], 24, READ_FAULT),
        (&[2], &[1], &[], 24, READ_FAULT),
        (&[8], &[], &[], 24, READ_FAULT),
        (&[], &[1], &[], 27, LISTING_FAULT),
        (&[], &[5], &[], 27, LISTING_FAULT),
        (&[1], &[1], &[1], 25, b""),
        (&[], &[2], &[1], 25, b""),
        (&[], &[], &[1], 25, b""),
    ];
    for (failing_job, failing_listing, failing_writes, status, line) in cases {
        let answer = in_pieces(rt.alloc(), failing_job, failing_listing, failing_writes)?;
        assert!(rt; answer.is(status, line));
    }
    Ok(())
}

// The line has three parts, and each is written by itself.
#[test]
fn each_write_may_fail(rt: HostRuntime) -> Result<(), Fail> {
    for (write, front) in [(1, ""), (2, "ATTESTED "), (3, "ATTESTED 5")] {
        let answer = in_pieces(rt.alloc(), &[], &[], &[write])?;
        assert!(rt; answer.is(25, front.as_bytes()));
    }
    assert!(rt; in_pieces(rt.alloc(), &[], &[], &[4])?.is(0, b"ATTESTED 5 REPORTS\n"));
    Ok(())
}

// A read would fail, and so would a read of the listing.
#[test]
fn words_are_refused(rt: HostRuntime) -> Result<(), Fail> {
    let alloc = rt.alloc();
    for word in ["", "--help", "LISTING"] {
        let words = vec![in alloc; String::from_str(alloc, word)?]?;
        let mut job = MemorySource::new(alloc, b"", &[1])?;
        let mut listing = MemorySource::new(alloc, b"", &[1])?;
        let mut print = MemorySink::new(alloc, &[])?;
        let status = check_listing::<Of128Bits, _, _, _>(
            alloc,
            &words,
            &mut job,
            &mut listing,
            &mut print,
        ).code();
        assert_eq!(rt; status, 4);
        assert!(rt; print.bytes() == WORDS);
    }
    Ok(())
}

#[test]
fn a_print_may_want_memory(rt: HostRuntime) -> Result<(), Fail> {
    let alloc = rt.alloc();
    let mut job = MemorySource::new(alloc, b"", &[1])?;
    let mut listing = MemorySource::new(alloc, b"", &[])?;
    let mut print = Full::new();
    assert_eq!(rt;
        check_listing::<Of128Bits, _, _, _>(alloc, &[], &mut job, &mut listing, &mut print).code(),
        28
    );
    Ok(())
}
