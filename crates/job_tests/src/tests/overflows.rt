// Worked jobs in which a number grows too large.
use super::rows::Row;
use test_decks::problems::{FAR_RANGE, GREAT_SLACK, LIMIT_ROWS};
use test_decks::programs::{SOLVE, SOLVE_BND, SOLVE_RANGE};

// The cards after those of X where the limit is great.
const GREAT_LIMIT: &[u8] = b"RHS\n    B         LIM       999999999E18\nENDATA\n";

/// Jobs in which a number grows too large: what their listings begin with. Which operation is refused first is free.
pub const OVERFLOWS: [Row; 6] = [
    Row {
        name: "opening point overflow",
        job: &[
            SOLVE_BND,
            b"NAME          BIG
ROWS
 N  COST
 L  BIG
COLUMNS
    X         COST      1
    X         BIG       999999999E18
BOUNDS
 LO BND       X         999999999E18
ENDATA
",
        ],
        status: 20,
        listing: b"CONVERT BIG      ROWS 2 COLUMNS 1 ENTRIES 2
SETUP   BIG      MIN
STOP 20 OVERFLOW F10\x20",
    },
    Row {
        name: "range sum overflow",
        job: &[SOLVE_RANGE, FAR_RANGE],
        status: 20,
        listing: b"CONVERT T        ROWS 2 COLUMNS 1 ENTRIES 1\nSTOP 20 OVERFLOW F13 ",
    },
    Row {
        name: "slack overflow",
        job: &[SOLVE_BND, GREAT_SLACK],
        status: 20,
        listing: b"CONVERT T        ROWS 2 COLUMNS 1 ENTRIES 2
SETUP   T        MIN
PRIMAL OPTIMAL STEPS 0 OBJECTIVE 1/10000000000000000000 CHECKED
STOP 20 OVERFLOW F6\x20",
    },
    Row {
        name: "step overflow",
        job: &[
            SOLVE,
            b"NAME          T\n",
            LIMIT_ROWS,
            b"    X         COST      -1\n    X         LIM       .1E-18\n",
            GREAT_LIMIT,
        ],
        status: 20,
        listing: b"CONVERT T        ROWS 2 COLUMNS 1 ENTRIES 2
SETUP   T        MIN
STOP 20 OVERFLOW F7\x20",
    },
    Row {
        name: "objective overflow",
        job: &[
            SOLVE,
            b"NAME          T\n",
            LIMIT_ROWS,
            b"    X         COST      -99999999E18\n    X         LIM       1\n",
            GREAT_LIMIT,
        ],
        status: 20,
        listing: b"CONVERT T        ROWS 2 COLUMNS 1 ENTRIES 2
SETUP   T        MIN
STOP 20 OVERFLOW F",
    },
    Row {
        name: "price overflow",
        job: &[
            SOLVE,
            b"NAME          T
ROWS
 N  COST
 G  LOW
COLUMNS
    X         COST      999999999E18
    X         LOW       .1E-18
RHS
    B         LOW       .1E-18
ENDATA
",
        ],
        status: 20,
        listing: b"CONVERT T        ROWS 2 COLUMNS 1 ENTRIES 2
SETUP   T        MIN
STOP 20 OVERFLOW F",
    },
];
