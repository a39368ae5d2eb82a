// Worked jobs that end with a verdict, or at a limit.
use super::frames::{Case, Jobs, SET_UP_BND, first_unanswered};
use super::over::{OVER_CONFLICT, OVER_ENDLESS, OVER_TESTPROB};
use super::rows::Row;
use super::runs::first_unreported;
use std::test::Fail;
use test_decks::problems::{BEALE, CROSSED, LIMIT_OF_4, LIMIT_ROWS};
use test_decks::programs::SOLVE_IN_NO_STEP;

// Runs that end with a verdict, or at a limit.
const VERDICTS: [Row; 3] = [
    Row {
        name: "iteration limit 0",
        job: &[
            SOLVE_IN_NO_STEP,
            b"NAME          FIRST\n",
            LIMIT_ROWS,
            b"    X         COST      -1\n",
            LIMIT_OF_4,
        ],
        status: 16,
        listing: b"CONVERT FIRST    ROWS 2 COLUMNS 1 ENTRIES 2
SETUP   FIRST    MIN
STOP 16 ITERATION LIMIT 0 CARD 5
",
    },
    Row {
        name: "a limit after none",
        job: &[
            b"         PROGRAM
         CONVERT
         SETUP
         MOVE(XITERLIM,'NONE')
         MOVE(XITERLIM,5)
         PRIMAL
         SOLUTION
         EXIT
         PEND
",
            BEALE,
        ],
        status: 16,
        listing: b"CONVERT BEALE    ROWS 4 COLUMNS 4 ENTRIES 13
SETUP   BEALE    MIN
STOP 16 ITERATION LIMIT 5 CARD 6
",
    },
    Row {
        name: "statement limit",
        job: &[b"         PROGRAM\nLOOP     GOTO(LOOP)\n         PEND\n"],
        status: 17,
        listing: b"STOP 17 STATEMENT LIMIT\n",
    },
];

// Programs over a column with an upper bound below its lower one.
const OVER_CROSSED: Jobs = Jobs {
    program: SET_UP_BND,
    problem: &[CROSSED],
    listing: b"CONVERT T        ROWS 1 COLUMNS 1 ENTRIES 1\nSETUP   T        MIN\n",
};

// Runs over problems of several jobs.
const CASES: [Case; 4] = [
    Case {
        name: "negative upper crossed",
        jobs: &OVER_CROSSED,
        statements: b"         PRIMAL\n         SOLUTION\n",
        status: 1,
        lines: b"PRIMAL INFEASIBLE STEPS 0 CROSSED 2 CHECKED\nEND 1\n",
    },
    Case {
        name: "infeasible ray",
        jobs: &OVER_CONFLICT,
        statements: b"         PRIMAL\n         SOLUTION\n",
        status: 1,
        lines: b"PRIMAL INFEASIBLE STEPS 1 RAY CHECKED\n    2 LOW      -1\n    3 HIGH     1\nEND 1\n",
    },
    Case {
        name: "unbounded",
        jobs: &OVER_ENDLESS,
        statements: b"         PRIMAL\n         SOLUTION\n",
        status: 2,
        lines: b"PRIMAL UNBOUNDED STEPS 0 OBJECTIVE 0 CHECKED
    1 COST     0 -1
    2 X        0 1
END 2
",
    },
    Case {
        name: "iteration limit 2",
        jobs: &OVER_TESTPROB,
        statements: b"         MOVE(XITERLIM,2)\n         PRIMAL\n         SOLUTION\n",
        status: 16,
        lines: b"STOP 16 ITERATION LIMIT 2 CARD 5\n",
    },
];

#[test]
fn verdicts_and_limits_end_a_run(rt: HostRuntime) -> Result<(), Fail> {
    assert_eq!(rt; first_unanswered(rt.alloc(), &CASES)?, None);
    assert_eq!(rt; first_unreported(rt.alloc(), &VERDICTS)?, None);
    Ok(())
}
