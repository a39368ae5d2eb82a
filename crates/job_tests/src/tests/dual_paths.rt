// Paths that the dual simplex method follows.
use super::frames::{Case, first_unanswered};
use super::over::{OVER_CONFLICT, OVER_ENDLESS, OVER_PLAN, TESTPROB_COLUMNS, TESTPROB_ROWS};
use super::rows::{Row, Solved};
use super::runs::{first_unreported, first_unsolved};
use std::test::Fail;
use test_decks::problems::{ENDATA, PLAN, TESTPROB_CARDS};
use test_decks::programs::{DUAL, DUAL_BND};

// Programs of DUAL that show their plan.
const SOLVED: [Solved; 7] = [
    Solved {
        name: "ties of the ratio test",
        job: &[
            DUAL,
            b"NAME          T
ROWS
 N  COST
 G  A
COLUMNS
    X         COST      2
    X         A         1
    Y         COST      4
    Y         A         2
RHS
    B         A         4
ENDATA
",
        ],
        lines: b"CONVERT T        ROWS 2 COLUMNS 2 ENTRIES 4
SETUP   T        MIN
DUAL OPTIMAL STEPS 1 OBJECTIVE 8 CHECKED
",
        rows: b"    1 COST     BS 8 -8 NONE NONE 0\n    2 A        LL 4 0 4 NONE 2\n",
        columns: b"    3 X        BS 4 2 0 NONE 0\n    4 Y        LL 0 4 0 NONE 0\n",
    },
    Solved {
        name: "dual maximises",
        job: &[
            b"         PROGRAM
         CONVERT
         SETUP('MAX')
         DUAL
         SOLUTION
         EXIT
         PEND
NAME          T
ROWS
 N  COST
 L  A
 L  B
COLUMNS
    X         COST      -1
    X         A         -1
    X         B         1
    Y         COST      -2
    Y         A         -1
    Y         B         -1
RHS
    B         A         -3
    B         B         1
ENDATA
",
        ],
        lines: b"CONVERT T        ROWS 3 COLUMNS 2 ENTRIES 6
SETUP   T        MAX
DUAL OPTIMAL STEPS 2 OBJECTIVE -4 CHECKED
",
        rows: b"    1 COST     BS -4 4 NONE NONE 0
    2 A        UL -3 0 NONE -3 3/2
    3 B        UL 1 0 NONE 1 1/2
",
        columns: b"    4 X        BS 2 -1 0 NONE 0\n    5 Y        BS 1 -2 0 NONE 0\n",
    },
    Solved {
        name: "free and fixed columns",
        job: &[
            DUAL_BND,
            b"NAME          T
ROWS
 N  COST
 G  A
COLUMNS
    X         COST      1
    X         A         1
    W         A         1
RHS
    B         A         4
BOUNDS
 FX BND       X         1
 FR BND       W
ENDATA
",
        ],
        lines: b"CONVERT T        ROWS 2 COLUMNS 2 ENTRIES 3
SETUP   T        MIN
DUAL OPTIMAL STEPS 1 OBJECTIVE 1 CHECKED
",
        rows: b"    1 COST     BS 1 -1 NONE NONE 0\n    2 A        LL 4 0 4 NONE 0\n",
        columns: b"    3 X        EQ 1 1 1 1 1\n    4 W        BS 3 0 NONE NONE 0\n",
    },
    Solved {
        name: "dual with a range",
        job: &[
            b"         PROGRAM
         CONVERT
         SETUP('RANGE','RG')
         DUAL
         SOLUTION
         EXIT
         PEND
NAME          T
ROWS
 N  COST
 L  A
COLUMNS
    X         COST      1
    X         A         -1
RHS
    B         A         -3
RANGES
    RG        A         2
ENDATA
",
        ],
        lines: b"CONVERT T        ROWS 2 COLUMNS 1 ENTRIES 2
SETUP   T        MIN
DUAL OPTIMAL STEPS 1 OBJECTIVE 3 CHECKED
",
        rows: b"    1 COST     BS 3 -3 NONE NONE 0\n    2 A        UL -3 0 -5 -3 -1\n",
        columns: b"    3 X        BS 3 1 0 NONE 0\n",
    },
    Solved {
        name: "dual testprob",
        job: &[
            b"         PROGRAM
         CONVERT
         SETUP('BOUND','BND1')
         DUAL
         SOLUTION
         EXIT
         PEND
",
            TESTPROB_CARDS,
            ENDATA,
        ],
        lines: b"CONVERT TESTPROB ROWS 4 COLUMNS 3 ENTRIES 9
SETUP   TESTPROB MIN
DUAL OPTIMAL STEPS 3 OBJECTIVE 54 CHECKED
",
        rows: TESTPROB_ROWS,
        columns: TESTPROB_COLUMNS,
    },
    Solved {
        name: "dual of a plan",
        job: &[DUAL_BND, PLAN],
        lines: b"CONVERT PLAN     ROWS 4 COLUMNS 3 ENTRIES 12
SETUP   PLAN     MIN
DUAL OPTIMAL STEPS 2 OBJECTIVE 9 CHECKED
",
        rows: b"    1 COST     BS 9 -9 NONE NONE 0
    2 A        LL 4 0 4 NONE 1
    3 B        LL 5 0 5 NONE 1
    4 C        BS 4 2 NONE 6 0
",
        columns: b"    5 X        BS 1 3 0 2 0
    6 Y        BS 3 2 0 NONE 0
    7 Z        LL 0 4 0 1 1
",
    },
    Solved {
        name: "dual after another right hand side",
        job: &[
            b"         PROGRAM
         CONVERT
         SETUP('BOUND','BND')
         PRIMAL
         MOVE(XRHS,'S')
         DUAL
         SOLUTION
         EXIT
         PEND
",
            PLAN,
        ],
        lines: b"CONVERT PLAN     ROWS 4 COLUMNS 3 ENTRIES 12
SETUP   PLAN     MIN
PRIMAL OPTIMAL STEPS 3 OBJECTIVE 9 CHECKED
DUAL OPTIMAL STEPS 1 OBJECTIVE 14 CHECKED
",
        rows: b"    1 COST     BS 14 -14 NONE NONE 0
    2 A        BS 6 -3 3 NONE 0
    3 B        LL 8 0 8 NONE 2
    4 C        BS 6 0 NONE 6 0
",
        columns: b"    5 X        UL 2 3 0 2 -1
    6 Y        BS 4 2 0 NONE 0
    7 Z        LL 0 4 0 1 2
",
    },
];

// Programs of DUAL over other problems.
const OTHER_PATHS: [Row; 1] = [Row {
    name: "dual with crossed limits",
    job: &[
        DUAL_BND,
        b"NAME          T
ROWS
 N  COST
 G  A
COLUMNS
    X         COST      1
    X         A         1
RHS
    B         A         4
BOUNDS
 UP BND       X         -1
ENDATA
",
    ],
    status: 1,
    listing: b"CONVERT T        ROWS 2 COLUMNS 1 ENTRIES 2
SETUP   T        MIN
DUAL INFEASIBLE STEPS 0 CROSSED 3 CHECKED
END 1
",
}];

// Programs of DUAL over problems of several jobs.
const PATHS: [Case; 6] = [
    Case {
        name: "dual and primal at an optimal basis",
        jobs: &OVER_PLAN,
        statements: b"         DUAL\n         DUAL\n         PRIMAL\n",
        status: 0,
        lines: b"DUAL OPTIMAL STEPS 2 OBJECTIVE 9 CHECKED
DUAL OPTIMAL STEPS 0 OBJECTIVE 9 CHECKED
PRIMAL OPTIMAL STEPS 0 OBJECTIVE 9 CHECKED
END 0
",
    },
    Case {
        name: "dual past its limit",
        jobs: &OVER_PLAN,
        statements: b"         MOVE(XITERLIM,1)\n         DUAL\n",
        status: 16,
        lines: b"STOP 16 ITERATION LIMIT 1 CARD 5\n",
    },
    Case {
        name: "dual at its limit",
        jobs: &OVER_PLAN,
        statements: b"         MOVE(XITERLIM,2)\n         DUAL\n",
        status: 0,
        lines: b"DUAL OPTIMAL STEPS 2 OBJECTIVE 9 CHECKED\nEND 0\n",
    },
    Case {
        name: "dual infeasible",
        jobs: &OVER_CONFLICT,
        statements: b"         DUAL\n         SOLUTION\n",
        status: 1,
        lines: b"DUAL INFEASIBLE STEPS 1 RAY CHECKED\n    2 LOW      -1\n    3 HIGH     1\nEND 1\n",
    },
    Case {
        name: "dual and a demand",
        jobs: &OVER_CONFLICT,
        statements: b"         MVADR(XDONFS,L)\n         DUAL\n         EXIT\nL        SOLUTION\n",
        status: 0,
        lines: b"DUAL INFEASIBLE STEPS 1 RAY CHECKED
    2 LOW      -1
    3 HIGH     1
SOLUTION INFEASIBLE
SECTION 1 - ROWS
NUMBER ROW AT ACTIVITY SLACK LOWER UPPER DUAL
    1 COST     BS 3 -3 NONE NONE 0
    2 LOW      LL 3 0 3 NONE 1
    3 HIGH     ** 3 -1 NONE 2 0
SECTION 2 - COLUMNS
NUMBER COLUMN AT ACTIVITY COST LOWER UPPER REDUCED
    4 X        BS 3 1 0 NONE 0
END 0
",
    },
    Case {
        name: "dual wrong prices",
        jobs: &OVER_ENDLESS,
        statements: b"         DUAL\n         SOLUTION\n",
        status: 10,
        lines: b"STOP 10 VERB FAULT 16 CARD 4 VARIABLE 2\n",
    },
];

#[test]
fn dual_paths_are_followed(rt: HostRuntime) -> Result<(), Fail> {
    assert_eq!(rt; first_unsolved(rt.alloc(), &SOLVED)?, None);
    assert_eq!(rt; first_unanswered(rt.alloc(), &PATHS)?, None);
    assert_eq!(rt; first_unreported(rt.alloc(), &OTHER_PATHS)?, None);
    Ok(())
}
