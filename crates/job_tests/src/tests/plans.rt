// Worked jobs whose plans are solved.
use super::over::{TESTPROB_COLUMNS, TESTPROB_ROWS};
use super::rows::{Row, Solved};
use test_decks::problems::{
    BEALE, CROSSED, ENDATA, ENDLESS, GREAT_SLACK, LIMIT_OF_4, LIMIT_ROWS, ONE, TESTPROB_CARDS,
};
use test_decks::programs::{
    LAB_IF_UNBOUNDED, SOLVE, SOLVE_BND, SOLVE_BND1, SOLVE_IN_NO_STEP, SOLVE_MAX, SOLVE_RANGE,
};

// What is printed of TESTPROB before its plan.
const TESTPROB_BY_PRIMAL: &[u8] = b"CONVERT TESTPROB ROWS 4 COLUMNS 3 ENTRIES 9
SETUP   TESTPROB MIN
PRIMAL OPTIMAL STEPS 3 OBJECTIVE 54 CHECKED
";

// What is printed of the problem ONE, with its plan.
const ONE_BY_PRIMAL: &[u8] = b"CONVERT ONE      ROWS 2 COLUMNS 1 ENTRIES 2
SETUP   ONE      MIN
PRIMAL OPTIMAL STEPS 1 OBJECTIVE 1 CHECKED
";

const ONE_ROWS: &[u8] = b"    1 COST     BS 1 -1 NONE NONE 0
    2 LOW      LL 1 0 1 NONE 1
";

const ONE_COLUMNS: &[u8] = b"    3 X        BS 1 1 0 NONE 0\n";

// What is printed of Beale's problem, with its plan.
const BEALE_BY_PRIMAL: &[u8] = b"CONVERT BEALE    ROWS 4 COLUMNS 4 ENTRIES 13
SETUP   BEALE    MIN
PRIMAL OPTIMAL STEPS 6 OBJECTIVE -1/20 CHECKED
";

const BEALE_ROWS: &[u8] = b"    1 COST     BS -1/20 1/20 NONE NONE 0
    2 R1       BS -3/100 3/100 NONE 0 0
    3 R2       UL 0 0 NONE 0 -3/2
    4 R3       UL 1 0 NONE 1 -1/20
";

const BEALE_COLUMNS: &[u8] = b"    5 X1       BS 1/25 -3/4 0 NONE 0
    6 X2       LL 0 150 0 NONE 15
    7 X3       BS 1 -1/50 0 NONE 0
    8 X4       LL 0 6 0 NONE 21/2
";

/// Plans that are solved.
pub const SOLVED: [Solved; 12] = [
    Solved {
        name: "testprob primal",
        job: &[SOLVE_BND1, TESTPROB_CARDS, ENDATA],
        lines: TESTPROB_BY_PRIMAL,
        rows: TESTPROB_ROWS,
        columns: TESTPROB_COLUMNS,
    },
    Solved {
        name: "free deck",
        job: &[
            SOLVE,
            b"NAME          ONE       FREE
ROWS
 N COST
 G LOW
COLUMNS
 X COST 1 LOW 1
RHS
 LOW 1
ENDATA
",
        ],
        lines: ONE_BY_PRIMAL,
        rows: ONE_ROWS,
        columns: ONE_COLUMNS,
    },
    Solved {
        name: "beale cycling",
        job: &[SOLVE, BEALE],
        lines: BEALE_BY_PRIMAL,
        rows: BEALE_ROWS,
        columns: BEALE_COLUMNS,
    },
    Solved {
        name: "no iteration limit",
        job: &[
            b"         PROGRAM
         CONVERT
         SETUP
         MOVE(XITERLIM,'NONE')
         PRIMAL
         SOLUTION
         EXIT
         PEND
",
            BEALE,
        ],
        lines: BEALE_BY_PRIMAL,
        rows: BEALE_ROWS,
        columns: BEALE_COLUMNS,
    },
    Solved {
        name: "no columns",
        job: &[
            SOLVE,
            b"NAME          NIL
ROWS
 N  COST
COLUMNS
ENDATA
",
        ],
        lines: b"CONVERT NIL      ROWS 1 COLUMNS 0 ENTRIES 0
SETUP   NIL      MIN
PRIMAL OPTIMAL STEPS 0 OBJECTIVE 0 CHECKED
",
        rows: b"    1 COST     BS 0 0 NONE NONE 0\n",
        columns: b"",
    },
    Solved {
        name: "negative range on equality",
        job: &[
            SOLVE_RANGE,
            b"NAME          T
ROWS
 N  COST
 E  BAND
COLUMNS
    X         COST      1
    X         BAND      1
RHS
    B         BAND      5
RANGES
    R         BAND      -3
ENDATA
",
        ],
        lines: b"CONVERT T        ROWS 2 COLUMNS 1 ENTRIES 2
SETUP   T        MIN
PRIMAL OPTIMAL STEPS 1 OBJECTIVE 2 CHECKED
",
        rows: b"    1 COST     BS 2 -2 NONE NONE 0\n    2 BAND     LL 2 3 2 5 1\n",
        columns: b"    3 X        BS 2 1 0 NONE 0\n",
    },
    Solved {
        name: "card with trailing blanks",
        job: &[
            b"         PROGRAM
         CONVERT
         SETUP                                                                 X                   \x20
         PRIMAL
         SOLUTION
         EXIT
         PEND
",
            ONE,
        ],
        lines: ONE_BY_PRIMAL,
        rows: ONE_ROWS,
        columns: ONE_COLUMNS,
    },
    Solved {
        name: "iteration limit 3",
        job: &[
            b"         PROGRAM
         CONVERT
         SETUP('BOUND','BND1')
         MOVE(XITERLIM,3)
         PRIMAL
         SOLUTION
         EXIT
         PEND
",
            TESTPROB_CARDS,
            ENDATA,
        ],
        lines: TESTPROB_BY_PRIMAL,
        rows: TESTPROB_ROWS,
        columns: TESTPROB_COLUMNS,
    },
    Solved {
        name: "maximise",
        job: &[
            SOLVE_MAX,
            b"NAME          T\n",
            LIMIT_ROWS,
            b"    X         COST      3\n",
            LIMIT_OF_4,
        ],
        lines: b"CONVERT T        ROWS 2 COLUMNS 1 ENTRIES 2
SETUP   T        MAX
PRIMAL OPTIMAL STEPS 1 OBJECTIVE 12 CHECKED
",
        rows: b"    1 COST     BS 12 -12 NONE NONE 0\n    2 LIM      UL 4 0 NONE 4 3\n",
        columns: b"    3 X        BS 4 3 0 NONE 0\n",
    },
    Solved {
        name: "plain first",
        job: &[
            SOLVE_IN_NO_STEP,
            b"NAME          FIRST\n",
            LIMIT_ROWS,
            b"    X         COST      1\n",
            LIMIT_OF_4,
        ],
        lines: b"CONVERT FIRST    ROWS 2 COLUMNS 1 ENTRIES 2
SETUP   FIRST    MIN
PRIMAL OPTIMAL STEPS 0 OBJECTIVE 0 CHECKED
",
        rows: b"    1 COST     BS 0 0 NONE NONE 0\n    2 LIM      BS 0 4 NONE 4 0\n",
        columns: b"    3 X        LL 0 1 0 NONE 1\n",
    },
    Solved {
        name: "lower bound",
        job: &[
            SOLVE_BND,
            b"NAME          T
ROWS
 N  COST
COLUMNS
    X         COST      1
BOUNDS
 LO BND       X         2
ENDATA
",
        ],
        lines: b"CONVERT T        ROWS 1 COLUMNS 1 ENTRIES 1
SETUP   T        MIN
PRIMAL OPTIMAL STEPS 0 OBJECTIVE 2 CHECKED
",
        rows: b"    1 COST     BS 2 -2 NONE NONE 0\n",
        columns: b"    2 X        LL 2 1 2 NONE 1\n",
    },
    Solved {
        name: "without last byte",
        job: &[SOLVE_BND1, TESTPROB_CARDS, b"ENDATA"],
        lines: TESTPROB_BY_PRIMAL,
        rows: TESTPROB_ROWS,
        columns: TESTPROB_COLUMNS,
    },
];

/// Other programs that come to their end.
pub const PLANS: [Row; 5] = [
    Row {
        name: "unbounded demand solution",
        job: &[
            LAB_IF_UNBOUNDED,
            b"LAB      SOLUTION\n         EXIT\n         PEND\n",
            ENDLESS,
        ],
        status: 0,
        listing: b"CONVERT T        ROWS 1 COLUMNS 1 ENTRIES 1
SETUP   T        MIN
PRIMAL UNBOUNDED STEPS 0 OBJECTIVE 0 CHECKED
    1 COST     0 -1
    2 X        0 1
SOLUTION UNBOUNDED
SECTION 1 - ROWS
NUMBER ROW AT ACTIVITY SLACK LOWER UPPER DUAL
    1 COST     BS 0 0 NONE NONE 0
SECTION 2 - COLUMNS
NUMBER COLUMN AT ACTIVITY COST LOWER UPPER REDUCED
    2 X        LL 0 -1 0 NONE -1
END 0
",
    },
    Row {
        name: "crossed demand solution",
        job: &[
            b"         PROGRAM
         CONVERT
         SETUP('BOUND','BND')
         MVADR(XDONFS,LAB)
         PRIMAL
         EXIT
LAB      SOLUTION
         EXIT
         PEND
",
            CROSSED,
        ],
        status: 0,
        listing: b"CONVERT T        ROWS 1 COLUMNS 1 ENTRIES 1
SETUP   T        MIN
PRIMAL INFEASIBLE STEPS 0 CROSSED 2 CHECKED
SOLUTION INFEASIBLE
SECTION 1 - ROWS
NUMBER ROW AT ACTIVITY SLACK LOWER UPPER DUAL
    1 COST     BS 0 0 NONE NONE 0
SECTION 2 - COLUMNS
NUMBER COLUMN AT ACTIVITY COST LOWER UPPER REDUCED
    2 X        LL 0 1 0 -1 1
END 0
",
    },
    Row {
        name: "right hand side moved",
        job: &[
            b"         PROGRAM
         CONVERT
         SETUP
         PRIMAL
         MOVE(XRHS,'C')
         PRIMAL
         EXIT
         PEND
NAME          ONE
ROWS
 N  COST
 G  LOW
COLUMNS
    X         COST      1
    X         LOW       1
RHS
    B         LOW       1
    C         LOW       2
ENDATA
",
        ],
        status: 0,
        listing: b"CONVERT ONE      ROWS 2 COLUMNS 1 ENTRIES 2
SETUP   ONE      MIN
PRIMAL OPTIMAL STEPS 1 OBJECTIVE 1 CHECKED
PRIMAL OPTIMAL STEPS 0 OBJECTIVE 2 CHECKED
END 0
",
    },
    Row {
        name: "slack not printed",
        job: &[
            b"         PROGRAM
         CONVERT
         SETUP('BOUND','BND')
         PRIMAL
         EXIT
         PEND
",
            GREAT_SLACK,
        ],
        status: 0,
        listing: b"CONVERT T        ROWS 2 COLUMNS 1 ENTRIES 2
SETUP   T        MIN
PRIMAL OPTIMAL STEPS 0 OBJECTIVE 1/10000000000000000000 CHECKED
END 0
",
    },
    Row {
        name: "title and label",
        job: &[
            b"         PROGRAM
         TITLE('FIRST RUN')
         GOTO(LAST)
         SETUP
LAST     EXIT
         PEND
",
        ],
        status: 0,
        listing: b"TITLE FIRST RUN\nEND 0\n",
    },
];
