// Worked jobs that revise a problem.
use super::frames::{CONVERTED, Case, Fault, Frame, Jobs, Refusals, Stop, first_unanswered};
use super::over::ONE_CONVERTED;
use super::rows::Row;
use super::runs::first_unreported;
use std::test::Fail;
use test_decks::problems::{ENDATA, ONE, REVISED_SIDE};
use test_decks::programs::REVISE;

// Programs over the problem ONE and a revision of its right-hand side.
const OVER_REVISED_ONE: Jobs = Jobs {
    program: CONVERTED,
    problem: &[ONE, REVISED_SIDE],
    listing: ONE_CONVERTED,
};

const SIDE_REVISIONS: [Case; 4] = [
    Case {
        name: "revise right hand side",
        jobs: &OVER_REVISED_ONE,
        statements: b"         SETUP
         PRIMAL
         MOVE(XPBNAME,'NEW')
         REVISE
         SETUP
         PRIMAL
",
        status: 0,
        lines: b"SETUP   ONE      MIN
PRIMAL OPTIMAL STEPS 1 OBJECTIVE 1 CHECKED
REVISE  NEW      ROWS 2 COLUMNS 1 ENTRIES 2
SETUP   NEW      MIN
PRIMAL OPTIMAL STEPS 1 OBJECTIVE 2 CHECKED
END 0
",
    },
    Case {
        name: "revise keeps the old problem",
        jobs: &OVER_REVISED_ONE,
        statements: b"         REVISE\n         MOVE(XPBNAME,'ONE')\n         SETUP\n         PRIMAL\n",
        status: 0,
        lines: b"REVISE  REV      ROWS 2 COLUMNS 1 ENTRIES 2
SETUP   ONE      MIN
PRIMAL OPTIMAL STEPS 1 OBJECTIVE 1 CHECKED
END 0
",
    },
    Case {
        name: "revise clears the setup",
        jobs: &OVER_REVISED_ONE,
        statements: b"         SETUP\n         REVISE\n         PRIMAL\n",
        status: 10,
        lines: b"SETUP   ONE      MIN
REVISE  REV      ROWS 2 COLUMNS 1 ENTRIES 2
STOP 10 VERB FAULT 3 CARD 5
",
    },
    Case {
        name: "revise of an unknown name",
        jobs: &OVER_REVISED_ONE,
        statements: b"         MOVE(XOLDNAME,'TWO')\n         REVISE\n",
        status: 10,
        lines: b"STOP 10 VERB FAULT 2 CARD 4\n",
    },
];

// Cards of a revision that are refused.
const REVISION_CARDS: Refusals = Refusals {
    job: Frame {
        before: &[REVISE, ONE, b"NAME          REV\n"],
        after: &[ENDATA],
    },
    listing: ONE_CONVERTED,
    stop: Stop::Deck,
};

const REVISION_FAULTS: [Fault; 2] = [
    (
        "revise delete missing",
        "ROWS\n DELETE\n G  ZZ\n",
        "23 CARD 19",
    ),
    (
        "revise unknown action",
        "ROWS\n CHANGE\n G  LOW\n",
        "21 CARD 18",
    ),
];

// Other revisions.
const OTHER_REVISIONS: [Row; 4] = [
    Row {
        name: "revise delete row",
        job: &[
            REVISE,
            ONE,
            b"NAME          REV
ROWS
 DELETE
 G  LOW
ENDATA
",
        ],
        status: 0,
        listing: b"CONVERT ONE      ROWS 2 COLUMNS 1 ENTRIES 2
REVISE  REV      ROWS 1 COLUMNS 1 ENTRIES 1
END 0
",
    },
    Row {
        name: "revise of an old name",
        job: &[
            b"         PROGRAM
         CONVERT
         REVISE
         MOVE(XOLDNAME,'ONE')
         REVISE
         SETUP
         PRIMAL
         EXIT
         PEND
",
            ONE,
            REVISED_SIDE,
            b"NAME          REV2
COLUMNS
 MODIFY
    X         COST      5
ENDATA
",
        ],
        status: 0,
        listing: b"CONVERT ONE      ROWS 2 COLUMNS 1 ENTRIES 2
REVISE  REV      ROWS 2 COLUMNS 1 ENTRIES 2
REVISE  REV2     ROWS 2 COLUMNS 1 ENTRIES 2
SETUP   REV2     MIN
PRIMAL OPTIMAL STEPS 1 OBJECTIVE 5 CHECKED
END 0
",
    },
    Row {
        name: "revise without a problem",
        job: &[
            b"         PROGRAM
         REVISE
         EXIT
         PEND
",
            REVISED_SIDE,
        ],
        status: 10,
        listing: b"STOP 10 VERB FAULT 2 CARD 2\n",
    },
    Row {
        name: "revise without a deck",
        job: &[REVISE, ONE],
        status: 10,
        listing: b"CONVERT ONE      ROWS 2 COLUMNS 1 ENTRIES 2\nSTOP 10 VERB FAULT 1 CARD 3\n",
    },
];

#[test]
fn problems_are_revised(rt: HostRuntime) -> Result<(), Fail> {
    let alloc = rt.alloc();
    assert_eq!(rt; first_unanswered(alloc, &SIDE_REVISIONS)?, None);
    assert_eq!(rt; REVISION_CARDS.first_unmet(alloc, &REVISION_FAULTS)?, None);
    assert_eq!(rt; first_unreported(alloc, &OTHER_REVISIONS)?, None);
    Ok(())
}
