// Worked jobs that ask for intervals.
use super::frames::Case;
use super::over::{OVER_ENDLESS, OVER_ONE, OVER_TESTPROB, OVER_TWO};
use test_decks::listings::TWO_RANGED;

/// Intervals in which a plan stays the best, and statements that ask for them too soon.
pub const RANGES: [Case; 5] = [
    Case {
        name: "range two",
        jobs: &OVER_TWO,
        statements: b"         PRIMAL\n         RANGE\n",
        status: 0,
        lines: TWO_RANGED,
    },
    Case {
        name: "range testprob",
        jobs: &OVER_TESTPROB,
        statements: b"         PRIMAL\n         RANGE\n",
        status: 0,
        lines: b"PRIMAL OPTIMAL STEPS 3 OBJECTIVE 54 CHECKED
RANGE
SECTION 1 - ROWS AT LIMIT LEVEL
    3 LIM2     LL 10 6 10
    4 MYEQN    EQ 7 7 11
SECTION 2 - COLUMNS AT LIMIT LEVEL
    6 YTWO     LL -1 -1 1 4 -8 NONE
SECTION 3 - ROWS AT INTERMEDIATE LEVEL
    2 LIM1     BS 3 -1 NONE
SECTION 4 - COLUMNS AT INTERMEDIATE LEVEL
    5 XONE     BS 4 1 0 13
    7 ZTHREE   BS 6 9 -3 NONE
END 0
",
    },
    Case {
        name: "unbounded demand range",
        jobs: &OVER_ENDLESS,
        statements: b"         MVADR(XDOUNB,LAB)\n         PRIMAL\n         EXIT\nLAB      RANGE\n",
        status: 10,
        lines: b"PRIMAL UNBOUNDED STEPS 0 OBJECTIVE 0 CHECKED
    1 COST     0 -1
    2 X        0 1
STOP 10 VERB FAULT 5 CARD 7
",
    },
    Case {
        name: "range without a setup",
        jobs: &OVER_ONE,
        statements: b"         RANGE\n",
        status: 10,
        lines: b"STOP 10 VERB FAULT 3 CARD 3\n",
    },
    Case {
        name: "range without a mark",
        jobs: &OVER_ONE,
        statements: b"         SETUP\n         RANGE\n",
        status: 10,
        lines: b"SETUP   ONE      MIN\nSTOP 10 VERB FAULT 4 CARD 4\n",
    },
];
