// Worked jobs with parametric runs, with the status and the listing of each.
use super::frames::{Case, Jobs, SET_UP_BND};
use super::over::OVER_TWO;
use super::rows::Row;
use test_decks::listings::{
    BOUNDED_ONE_AT_0, BOUNDED_ONE_FOLLOWED, ENDLESS_FOLLOWED, ONE_SET_UP, TWO_SOURCES_FOLLOWED,
};
use test_decks::problems::{BOUNDED_ONE, ENDLESS_UP_TO_1, ONE, TWO_SOURCES};
use test_decks::programs::{PARAOBJ_TO_5, PARARHS_TO_5};

// Programs over the problem ONE with a second right-hand side and an upper bound.
const OVER_BOUNDED_ONE: Jobs = Jobs {
    program: SET_UP_BND,
    problem: &[BOUNDED_ONE],
    listing: ONE_SET_UP,
};

/// Parametric runs, to their last value or past a breakpoint.
pub const PARAMETRIC_CASES: [Case; 3] = [
    Case {
        name: "paraobj two intervals",
        jobs: &OVER_TWO,
        statements: b"         MOVE(XCHROW,'CHG')\n         MOVE(XPARMAX,5)\n         PARAOBJ\n",
        status: 0,
        lines: b"PARAOBJ FROM 0 CHANGE CHG
INTERVAL 1 FROM 0 TO 1
    1 COST     BS -8 0 0 0
    2 CHG      BS 0 0 0 0
    3 LIM      UL 4 0 -2 0
    4 X        LL 0 0 1 -1
    5 Y        BS 4 0 0 0
INTERVAL 2 FROM 1 TO 5
    1 COST     BS -5 0 0 0
    2 CHG      BS -3 0 0 0
    3 LIM      UL 4 0 -2 0
    4 X        UL 3 0 1 -1
    5 Y        BS 1 0 0 0
PARAOBJ ENDS AT 5
END 0
",
    },
    Case {
        name: "pararhs infeasible past",
        jobs: &OVER_BOUNDED_ONE,
        statements: b"         MOVE(XCHCOL,'C')\n         MOVE(XPARMAX,5)\n         PARARHS\n",
        status: 0,
        lines: BOUNDED_ONE_FOLLOWED,
    },
    Case {
        name: "pararhs point interval",
        jobs: &OVER_BOUNDED_ONE,
        statements: b"         MOVE(XCHCOL,'C')\n         MOVE(XPARMAX,0)\n         PARARHS\n",
        status: 0,
        lines: BOUNDED_ONE_AT_0,
    },
];

/// Such runs over problems of their own, and those that are refused.
pub const PARAMETRIC: [Row; 5] = [
    Row {
        name: "paraobj unbounded past",
        job: &[
            PARAOBJ_TO_5,
            b"NAME          T
ROWS
 N  COST
 N  CHG
COLUMNS
    X         COST      1
    X         CHG       -1
ENDATA
",
        ],
        status: 0,
        listing: b"CONVERT T        ROWS 2 COLUMNS 1 ENTRIES 2
SETUP   T        MIN
PARAOBJ FROM 0 CHANGE CHG
INTERVAL 1 FROM 0 TO 1
    1 COST     BS 0 0 0 0
    2 CHG      BS 0 0 0 0
    3 X        LL 0 0 1 -1
PARAOBJ UNBOUNDED PAST 1
    1 COST     0 1
    2 CHG      0 -1
    3 X        0 1
END 0
",
    },
    Row {
        name: "paraobj unbounded opening",
        job: &[PARAOBJ_TO_5, ENDLESS_UP_TO_1],
        status: 2,
        listing: ENDLESS_FOLLOWED,
    },
    Row {
        name: "paraobj parmax below",
        job: &[
            b"         PROGRAM
         CONVERT
         SETUP
         MOVE(XCHROW,'COST')
         MOVE(XPARMAX,-1)
         PARAOBJ
         PEND
",
            ONE,
        ],
        status: 10,
        listing: b"CONVERT ONE      ROWS 2 COLUMNS 1 ENTRIES 2
SETUP   ONE      MIN
STOP 10 VERB FAULT 9 CARD 6
",
    },
    Row {
        name: "pararhs two intervals",
        job: &[PARARHS_TO_5, TWO_SOURCES],
        status: 0,
        listing: TWO_SOURCES_FOLLOWED,
    },
    Row {
        name: "pararhs no change set",
        job: &[
            b"         PROGRAM
         CONVERT
         SETUP
         MOVE(XCHCOL,'Z')
         PARARHS
         PEND
",
            ONE,
        ],
        status: 10,
        listing: b"CONVERT ONE      ROWS 2 COLUMNS 1 ENTRIES 2
SETUP   ONE      MIN
STOP 10 VERB FAULT 7 CARD 5
",
    },
];
