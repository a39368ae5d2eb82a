// Plans and their solutions.
use super::listings::{Case, Edit, Finding, Listing};
use super::store::{STORE_FROM_EXIT, STORE_SOLUTION, STORE_TO_PRIMAL, STORE_VERDICT};
use test_decks::parts::{PLAN_COLUMNS, PLAN_ROWS};
use test_decks::problems;
use test_decks::programs::{SOLVE, SOLVE_BND1};

/// A plan of a store, and its listing changed.
pub const STORE: Listing = Listing {
    name: "store",
    job: &[
        STORE_TO_PRIMAL,
        b"         SOLUTION\n",
        STORE_FROM_EXIT,
        problems::STORE,
    ],
    text: &[STORE_VERDICT, STORE_SOLUTION, b"END 0\n"],
    found: Finding::Attested(5),
    cases: &[
        Case {
            name: "many steps",
            edit: Edit::Text(b"STEPS 0", b"STEPS 4294967295"),
            found: Finding::Attested(5),
        },
        Case {
            name: "flour at its upper limit",
            edit: Edit::Text(b"4 FLOUR    LL", b"4 FLOUR    UL"),
            found: Finding::Attested(5),
        },
        Case {
            name: "flour at two limits",
            edit: Edit::Text(b"4 FLOUR    LL", b"4 FLOUR    **"),
            found: Finding::Attested(5),
        },
        Case {
            name: "another objective",
            edit: Edit::Text(b"OBJECTIVE 0", b"OBJECTIVE 1"),
            found: Finding::Wrong(4),
        },
        Case {
            name: "minus zero",
            edit: Edit::Text(b"OBJECTIVE 0", b"OBJECTIVE -0"),
            found: Finding::Wrong(4),
        },
        Case {
            name: "an objective of 128 bits",
            edit: Edit::Text(
                b"OBJECTIVE 0",
                b"OBJECTIVE 170141183460469231731687303715884105728",
            ),
            found: Finding::Wrong(4),
        },
        Case {
            name: "too many steps",
            edit: Edit::Text(b"STEPS 0", b"STEPS 4294967296"),
            found: Finding::Wrong(4),
        },
        Case {
            name: "steps with a zero in front",
            edit: Edit::Text(b"STEPS 0", b"STEPS 00"),
            found: Finding::Wrong(4),
        },
        Case {
            name: "an objective that was checked only in part",
            edit: Edit::Text(b"CHECKED", b"UNCHECKED MUL 1 1"),
            found: Finding::Wrong(4),
        },
        Case {
            name: "another code",
            edit: Edit::Text(b"4 FLOUR    LL", b"4 FLOUR    XX"),
            found: Finding::Wrong(5),
        },
        Case {
            name: "another activity",
            edit: Edit::Text(b"FLOUR    LL 0", b"FLOUR    LL 1"),
            found: Finding::Wrong(5),
        },
        Case {
            name: "a whole number over one",
            edit: Edit::Text(b"LL 0 3 0", b"LL 0 3/1 0"),
            found: Finding::Wrong(5),
        },
        Case {
            name: "a fraction that is not in lowest terms",
            edit: Edit::Text(b"LL 0 5/2 0", b"LL 0 10/4 0"),
            found: Finding::Wrong(5),
        },
        Case {
            name: "another slack",
            edit: Edit::Text(b"BS 0 40 NONE 40 0", b"BS 0 41 NONE 40 0"),
            found: Finding::Wrong(5),
        },
        Case {
            name: "another price",
            edit: Edit::Text(b"BS 0 40 NONE 40 0", b"BS 0 40 NONE 40 1"),
            found: Finding::Wrong(5),
        },
        Case {
            name: "no solution",
            edit: Edit::From(b"SOLUTION OPTIMAL", b"END 0\n"),
            found: Finding::Wrong(5),
        },
        Case {
            name: "another title",
            edit: Edit::Text(b"CHEAPEST", b"DEAREST"),
            found: Finding::Wrong(1),
        },
        Case {
            name: "a return before the line feed",
            edit: Edit::Text(b"PLAN\n", b"PLAN\r\n"),
            found: Finding::Wrong(1),
        },
        Case {
            name: "nothing",
            edit: Edit::From(b"TITLE", b""),
            found: Finding::Wrong(1),
        },
        Case {
            name: "a statement limit alone",
            edit: Edit::From(b"TITLE", b"STOP 17 STATEMENT LIMIT\n"),
            found: Finding::Wrong(1),
        },
        Case {
            name: "a stop with a word behind",
            edit: Edit::From(b"TITLE", b"STOP 28 MEMORY NOW\n"),
            found: Finding::Wrong(1),
        },
        Case {
            name: "no last line feed",
            edit: Edit::From(b"END 0", b"END 0"),
            found: Finding::Wrong(15),
        },
        Case {
            name: "two ends",
            edit: Edit::Text(b"END 0\n", b"END 0\nEND 0\n"),
            found: Finding::Wrong(16),
        },
        Case {
            name: "a byte behind the end",
            edit: Edit::Text(b"END 0\n", b"END 0\nX"),
            found: Finding::Wrong(16),
        },
        Case {
            name: "a ray of no lines",
            edit: Edit::From(
                b"PRIMAL",
                b"PRIMAL INFEASIBLE STEPS 0 RAY CHECKED\nTITLE NO PLAN KEEPS ALL LIMITS\nEND 0\n",
            ),
            found: Finding::Wrong(4),
        },
        Case {
            name: "a ray that proves nothing",
            edit: Edit::From(
                b"PRIMAL",
                b"PRIMAL INFEASIBLE STEPS 0 RAY CHECKED
    2 SPACE    1
TITLE NO PLAN KEEPS ALL LIMITS
END 0
",
            ),
            found: Finding::Wrong(4),
        },
        Case {
            name: "limits that are not crossed",
            edit: Edit::From(
                b"PRIMAL",
                b"PRIMAL INFEASIBLE STEPS 0 CROSSED 4 CHECKED
TITLE NO PLAN KEEPS ALL LIMITS
END 0
",
            ),
            found: Finding::Wrong(4),
        },
        Case {
            name: "a direction of zeros",
            edit: Edit::From(
                b"PRIMAL",
                b"PRIMAL UNBOUNDED STEPS 0 OBJECTIVE 0 CHECKED
    1 COST     0 0
    2 SPACE    0 0
    3 MONEY    0 0
    4 FLOUR    0 0
    5 SUGAR    0 0
END 2
",
            ),
            found: Finding::Wrong(4),
        },
        Case {
            name: "no memory at the beginning",
            edit: Edit::From(b"TITLE", b"STOP 28 MEMORY\n"),
            found: Finding::Open(1),
        },
        Case {
            name: "no memory at SOLUTION",
            edit: Edit::From(b"SOLUTION OPTIMAL", b"STOP 28 MEMORY\n"),
            found: Finding::Open(5),
        },
        Case {
            name: "no memory at the end",
            edit: Edit::Text(b"END 0\n", b"STOP 28 MEMORY\n"),
            found: Finding::Open(15),
        },
        Case {
            name: "a limit of steps",
            edit: Edit::From(b"PRIMAL", b"STOP 16 ITERATION LIMIT 10000 CARD 8\n"),
            found: Finding::Open(4),
        },
    ],
};

// The listing of TESTPROB down to the verdict of PRIMAL.
const TESTPROB_VERDICT: &[u8] = b"CONVERT TESTPROB ROWS 4 COLUMNS 3 ENTRIES 9
SETUP   TESTPROB MIN
PRIMAL OPTIMAL STEPS 3 OBJECTIVE 54 CHECKED
";

// The rows of its plan.
const TESTPROB_ROWS: &[u8] = b"    1 COST     BS 54 -54 NONE NONE 0
    2 LIM1     BS 3 2 NONE 5 0
    3 LIM2     LL 10 0 10 NONE 1
    4 MYEQN    EQ 7 0 7 7 8
";

// The columns of its plan.
const TESTPROB_COLUMNS: &[u8] = b"    5 XONE     BS 4 1 0 4 0
    6 YTWO     LL -1 4 -1 1 12
    7 ZTHREE   BS 6 9 0 NONE 0
";

/// A problem with bounds.
pub const TESTPROB: Listing = Listing {
    name: "testprob",
    job: &[SOLVE_BND1, problems::TESTPROB_CARDS, problems::ENDATA],
    text: &[
        TESTPROB_VERDICT,
        PLAN_ROWS,
        TESTPROB_ROWS,
        PLAN_COLUMNS,
        TESTPROB_COLUMNS,
        b"END 0\n",
    ],
    found: Finding::Attested(4),
    cases: &[],
};

/// The same problem, whose solution is shown twice.
pub const TWO_SOLUTIONS: Listing = Listing {
    name: "two solutions",
    job: &[
        b"         PROGRAM
         CONVERT
         SETUP('BOUND','BND1')
         PRIMAL
         SOLUTION
         SOLUTION
         EXIT
         PEND
",
        problems::TESTPROB_CARDS,
        problems::ENDATA,
    ],
    text: &[
        TESTPROB_VERDICT,
        PLAN_ROWS,
        TESTPROB_ROWS,
        PLAN_COLUMNS,
        TESTPROB_COLUMNS,
        PLAN_ROWS,
        TESTPROB_ROWS,
        PLAN_COLUMNS,
        TESTPROB_COLUMNS,
        b"END 0\n",
    ],
    found: Finding::Attested(5),
    cases: &[Case {
        name: "another second solution",
        edit: Edit::Parts(
            &[TESTPROB_ROWS, PLAN_COLUMNS, TESTPROB_COLUMNS, b"END 0\n"],
            &[
                b"    1 COST     BS 55 -55 NONE NONE 0
    2 LIM1     BS 4 1 NONE 5 0
    3 LIM2     LL 11 -1 10 NONE 1
    4 MYEQN    EQ 7 0 7 7 8
",
                PLAN_COLUMNS,
                b"    5 XONE     BS 5 1 0 4 0
    6 YTWO     LL -1 4 -1 1 12
    7 ZTHREE   BS 6 9 0 NONE 0
END 0
",
            ],
        ),
        found: Finding::Wrong(16),
    }],
};

// The columns at a corner that is best.
const CORNER: &[u8] = b"    3 X        BS 4 -1 0 NONE 0\n    4 Y        LL 0 -1 0 NONE 0\n";

/// A plan with more than one best point.
pub const TIES: Listing = Listing {
    name: "ties",
    job: &[
        SOLVE,
        b"NAME          T\n",
        problems::LIMIT_ROWS,
        b"    X         COST      -1
    X         LIM       1
    Y         COST      -1
    Y         LIM       1
RHS
    B         LIM       4
ENDATA
",
    ],
    text: &[
        b"CONVERT T        ROWS 2 COLUMNS 2 ENTRIES 4
SETUP   T        MIN
PRIMAL OPTIMAL STEPS 1 OBJECTIVE -4 CHECKED
",
        PLAN_ROWS,
        b"    1 COST     BS -4 4 NONE NONE 0
    2 LIM      UL 4 0 NONE 4 -1
",
        PLAN_COLUMNS,
        CORNER,
        b"END 0\n",
    ],
    found: Finding::Attested(4),
    cases: &[
        Case {
            name: "the other corner",
            edit: Edit::Text(
                CORNER,
                b"    3 X        LL 0 -1 0 NONE 0\n    4 Y        BS 4 -1 0 NONE 0\n",
            ),
            found: Finding::Attested(4),
        },
        Case {
            name: "a point between",
            edit: Edit::Text(
                CORNER,
                b"    3 X        BS 3/2 -1 0 NONE 0\n    4 Y        BS 5/2 -1 0 NONE 0\n",
            ),
            found: Finding::Attested(4),
        },
    ],
};

/// Names with blanks in them.
pub const BLANKS: Listing = Listing {
    name: "names with blanks",
    job: &[
        SOLVE,
        b"NAME           A
ROWS
 N   COST
 L  12 3
COLUMNS
    1          COST     1
    1         12 3      1
RHS
    B         12 3      4
ENDATA
",
    ],
    text: &[
        b"CONVERT  A       ROWS 2 COLUMNS 1 ENTRIES 2
SETUP    A       MIN
PRIMAL OPTIMAL STEPS 0 OBJECTIVE 0 CHECKED
",
        PLAN_ROWS,
        b"    1  COST    BS 0 0 NONE NONE 0
    2 12 3     BS 0 4 NONE 4 0
",
        PLAN_COLUMNS,
        b"    3 1        LL 0 1 0 NONE 1
END 0
",
    ],
    found: Finding::Attested(4),
    cases: &[],
};
