// Verdicts that there is no best plan.
use super::listings::{Case, Edit, Finding, Listing};
use test_decks::programs::SOLVE;
use test_decks::{listings, problems};

// The ray of the promises.
const PROMISES_RAY: &[u8] = b"    2 HOURS    1\n    3 CHAIRS   -2\n    4 TABLES   -5\n";

/// Limits that conflict.
pub const CONFLICT: Listing = Listing {
    name: "conflict",
    job: &[
        b"* A workshop promised more than its hours allow: no plan keeps all limits.
* It shows a ray: the rows that conflict, with the factors by which they do.
         PROGRAM
         TITLE('PROMISES AND HOURS')
         CONVERT
         SETUP('MIN')
         PRIMAL
         SOLUTION
         EXIT
         PEND
NAME          PROMISE
ROWS
 N  COST
 L  HOURS
 G  CHAIRS
 G  TABLES
COLUMNS
    CHAIR     COST      7              HOURS     2
    CHAIR     CHAIRS    1
    TABLE     COST      20             HOURS     5
    TABLE     TABLES    1
RHS
    WEEK      HOURS     100            CHAIRS    20
    WEEK      TABLES    14
ENDATA
",
    ],
    text: &[
        b"TITLE PROMISES AND HOURS
CONVERT PROMISE  ROWS 4 COLUMNS 2 ENTRIES 6
SETUP   PROMISE  MIN
PRIMAL INFEASIBLE STEPS 2 RAY CHECKED
    2 HOURS    1
    3 CHAIRS   -2
    4 TABLES   -5
END 1
",
    ],
    found: Finding::Attested(4),
    cases: &[
        Case {
            name: "the ray times three",
            edit: Edit::Text(
                PROMISES_RAY,
                b"    2 HOURS    3\n    3 CHAIRS   -6\n    4 TABLES   -15\n",
            ),
            found: Finding::Attested(4),
        },
        Case {
            name: "the ray turned",
            edit: Edit::Text(
                PROMISES_RAY,
                b"    2 HOURS    -1\n    3 CHAIRS   2\n    4 TABLES   5\n",
            ),
            found: Finding::Wrong(4),
        },
        Case {
            name: "another factor",
            edit: Edit::Text(b"TABLES   -5", b"TABLES   -4"),
            found: Finding::Wrong(4),
        },
        Case {
            name: "lines exchanged",
            edit: Edit::Text(
                PROMISES_RAY,
                b"    3 CHAIRS   -2\n    2 HOURS    1\n    4 TABLES   -5\n",
            ),
            found: Finding::Wrong(4),
        },
        Case {
            name: "a zero in front",
            edit: Edit::Text(b"    2 HOURS", b"    1 COST     0\n    2 HOURS"),
            found: Finding::Wrong(4),
        },
        Case {
            name: "a variable that is not there",
            edit: Edit::Text(b"TABLES   -5\n", b"TABLES   -5\n    9 X        1\n"),
            found: Finding::Wrong(4),
        },
        Case {
            name: "no variable crossed",
            edit: Edit::From(
                b"PRIMAL",
                b"PRIMAL INFEASIBLE STEPS 2 CROSSED 0 CHECKED\nEND 1\n",
            ),
            found: Finding::Wrong(4),
        },
        Case {
            name: "a variable crossed that is not there",
            edit: Edit::From(
                b"PRIMAL",
                b"PRIMAL INFEASIBLE STEPS 2 CROSSED 7 CHECKED\nEND 1\n",
            ),
            found: Finding::Wrong(4),
        },
        Case {
            name: "a verdict that was not checked",
            edit: Edit::Text(b"CHECKED", b"UNCHECKED ADD 1 2"),
            found: Finding::Wrong(4),
        },
        Case {
            name: "a line behind the ray",
            edit: Edit::Text(b"TABLES   -5\n", b"TABLES   -5\n junk\n"),
            found: Finding::Wrong(8),
        },
        Case {
            name: "another end",
            edit: Edit::Text(b"END 1", b"END 0"),
            found: Finding::Wrong(8),
        },
        Case {
            name: "no memory at the end",
            edit: Edit::Text(b"END 1", b"STOP 28 MEMORY"),
            found: Finding::Open(8),
        },
    ],
};

/// A lower limit above an upper one.
pub const INFEASIBLE: Listing = Listing {
    name: "infeasible ray",
    job: &[SOLVE, problems::CONFLICT],
    text: &[listings::CONFLICTING_LIMITS],
    found: Finding::Attested(3),
    cases: &[Case {
        name: "another factor",
        edit: Edit::Text(b"HIGH     1", b"HIGH     2"),
        found: Finding::Wrong(3),
    }],
};

/// A profit without a bound.
pub const UNBOUNDED: Listing = Listing {
    name: "endless",
    job: &[
        b"* A row was forgotten: nothing limits what is sold, so the profit has no bound.
* It shows a direction along which the profit grows for ever.
         PROGRAM
         TITLE('A ROW IS MISSING')
         CONVERT
         SETUP('MAX')
         PRIMAL
         SOLUTION
         EXIT
         PEND
NAME          ENDLESS
ROWS
 N  PROFIT
 L  MILLING
COLUMNS
    BUY       PROFIT    -3             MILLING   -1
    SELL      PROFIT    5              MILLING   1
RHS
    DAY       MILLING   40
ENDATA
",
    ],
    text: &[
        b"TITLE A ROW IS MISSING
CONVERT ENDLESS  ROWS 2 COLUMNS 2 ENTRIES 4
SETUP   ENDLESS  MAX
PRIMAL UNBOUNDED STEPS 1 OBJECTIVE 200 CHECKED
    1 PROFIT   200 2
    2 MILLING  40 0
    3 BUY      0 1
    4 SELL     40 1
END 2
",
    ],
    found: Finding::Attested(4),
    cases: &[
        Case {
            name: "another objective",
            edit: Edit::Text(b"OBJECTIVE 200", b"OBJECTIVE 201"),
            found: Finding::Wrong(4),
        },
        Case {
            name: "a direction of zeros",
            edit: Edit::Text(
                b"    1 PROFIT   200 2
    2 MILLING  40 0
    3 BUY      0 1
    4 SELL     40 1
",
                b"    1 PROFIT   200 0
    2 MILLING  40 0
    3 BUY      0 0
    4 SELL     40 0
",
            ),
            found: Finding::Wrong(4),
        },
    ],
};
