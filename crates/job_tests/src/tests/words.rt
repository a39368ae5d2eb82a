// Words of the command line, and the job that they may make.
use super::jobs::{Answer, Call, answer_to};
use mps_cli::make_job;
use std::alloc::Global;
use std::test::Fail;

// The generated job with two sources and two destinations.
const OF_SIZE_2: &[u8] = b"         PROGRAM
         INITIALZ
         MOVE(XITERLIM,1000000)
         CONVERT
         SETUP
         PRIMAL
         EXIT
         PEND
NAME          TRANSP
ROWS
 N  COST
 L  S001
 L  S002
 G  D001
 G  D002
COLUMNS
    X001001   COST      19
    X001001   S001      1
    X001001   D001      1
    X001002   COST      11
    X001002   S001      1
    X001002   D002      1
    X002001   COST      7
    X002001   S002      1
    X002001   D001      1
    X002002   COST      18
    X002002   S002      1
    X002002   D002      1
RHS
    RHS       S001      10
    RHS       S002      10
    RHS       D001      10
    RHS       D002      10
ENDATA
";

// What is answered to these words, where a read would fail.
fn answer_by(alloc: Global, words: &[&str]) -> Result<Answer, Fail> {
    let mut given = Vec::new(alloc);
    for word in words {
        given.push(String::from_str(alloc, word)?)?;
    }
    let call = Call {
        words: &given,
        job: b"",
        failing_reads: &[1],
        failing_writes: &[],
        failing_punches: &[],
    };
    answer_to(alloc, &call)
}

#[test]
fn a_job_is_made(rt: HostRuntime) -> Result<(), Fail> {
    assert!(rt; make_job(rt.alloc(), 2)?.as_slice() == OF_SIZE_2);
    assert_eq!(rt; make_job(rt.alloc(), 60)?.len(), 287213);
    Ok(())
}

#[test]
fn a_made_job_is_run(rt: HostRuntime) -> Result<(), Fail> {
    let one = b"CONVERT TRANSP   ROWS 3 COLUMNS 1 ENTRIES 3
SETUP   TRANSP   MIN
PRIMAL OPTIMAL STEPS 1 OBJECTIVE 190 CHECKED
END 0
";
    let two = b"CONVERT TRANSP   ROWS 5 COLUMNS 4 ENTRIES 12
SETUP   TRANSP   MIN
PRIMAL OPTIMAL STEPS 4 OBJECTIVE 180 CHECKED
END 0
";
    assert!(rt; answer_by(rt.alloc(), &["--make=1"])?.is(0, one));
    assert!(rt; answer_by(rt.alloc(), &["--make", "2"])?.is(0, two));
    assert!(rt; answer_by(rt.alloc(), &["--make", "2", "--"])?.is(0, two));
    Ok(())
}

#[test]
fn other_words_are_refused(rt: HostRuntime) -> Result<(), Fail> {
    let refused: [&[&str]; 10] = [
        &["stray"],
        &[""],
        &["--help"],
        &["--make"],
        &["--make", "0"],
        &["--make", "61"],
        &["--make", "02"],
        &["--make", "+2"],
        &["--make=1", "--make=1"],
        &["--make", "1", "stray"],
    ];
    for words in refused {
        assert!(rt; answer_by(rt.alloc(), words)?.is(4, b"STOP 4 WORDS\n"));
    }
    Ok(())
}

#[test]
fn the_end_of_options_asks_for_nothing(rt: HostRuntime) -> Result<(), Fail> {
    assert!(rt; answer_by(rt.alloc(), &["--"])?.is(24, b"STOP 24 READ FAULT\n"));
    Ok(())
}
