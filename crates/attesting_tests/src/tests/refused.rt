// Listings in whose tests an operation is refused.
use super::listings::{Case, Edit, Finding, Listing};
use test_decks::parts::{ONE_DEMAND, PLAN_COLUMNS, PLAN_ROWS};
use test_decks::problems;
use test_decks::programs::SOLVE;

/// A solution with numbers of 128 bits.
pub const GREAT: Listing = Listing {
    name: "great activities",
    job: &[
        SOLVE,
        b"NAME          T
ROWS
 N  COST
 G  LIM
COLUMNS
    X         COST      2
    X         LIM       1
RHS
    B         LIM       4
ENDATA
",
    ],
    text: &[
        b"CONVERT T        ROWS 2 COLUMNS 1 ENTRIES 2
SETUP   T        MIN
PRIMAL OPTIMAL STEPS 1 OBJECTIVE 8 CHECKED
",
        PLAN_ROWS,
        b"    1 COST     BS 170141183460469231731687303715884105727 -170141183460469231731687303715884105727 NONE NONE 0
    2 LIM      LL 170141183460469231731687303715884105727 0 4 NONE 2
",
        PLAN_COLUMNS,
        b"    3 X        BS 170141183460469231731687303715884105727 2 0 NONE 0
END 0
",
    ],
    found: Finding::Unchecked(4),
    cases: &[Case {
        name: "a verdict that was not checked",
        edit: Edit::Text(b"CHECKED", b"UNCHECKED MUL 1 2"),
        found: Finding::Unchecked(4),
    }],
};

// The stop at the sum of a range, before the number of its card.
const SUM_REFUSED: &[u8] =
    b"STOP 20 OVERFLOW F13 SUB 999999999000000000000000000 1/10000000000000000000 P 0 Q 0 I 2 J 0 TERM 1 THETA 0 CARD\x20";

// The rest of that stop, where there is no basis.
const NO_BASIS: &[u8] = b"\nBASIS NONE\nWAY NONE\n";

/// A range whose sum is refused, in a listing as if it were selected.
pub const RANGE_REFUSED: Listing = Listing {
    name: "a range that is refused",
    job: &[
        b"         PROGRAM
         CONVERT
         SETUP('RANGE','R')
         EXIT
         PEND
",
        problems::FAR_RANGE,
    ],
    text: &[b"CONVERT T        ROWS 2 COLUMNS 1 ENTRIES 1\nSETUP   T        MIN\nEND 0\n"],
    found: Finding::Unchecked(2),
    cases: &[
        Case {
            name: "another line",
            edit: Edit::From(b"SETUP", b"END 0\n"),
            found: Finding::Unchecked(2),
        },
        Case {
            name: "no line",
            edit: Edit::From(b"SETUP", b""),
            found: Finding::Unchecked(2),
        },
        Case {
            name: "its own stop",
            edit: Edit::Parts(
                &[b"SETUP   T        MIN\nEND 0\n"],
                &[SUM_REFUSED, b"3", NO_BASIS],
            ),
            found: Finding::Open(2),
        },
    ],
};

/// The same after a verdict that no SOLUTION shows, as if it were selected.
pub const RANGE_AFTER_PRIMAL: Listing = Listing {
    name: "a range that is refused after a verdict",
    job: &[
        b"         PROGRAM
         CONVERT
         SETUP
         PRIMAL
         SETUP('RANGE','R')
         EXIT
         PEND
",
        problems::FAR_RANGE,
    ],
    text: &[
        b"CONVERT T        ROWS 2 COLUMNS 1 ENTRIES 1
SETUP   T        MIN
PRIMAL OPTIMAL STEPS 0 OBJECTIVE 0 CHECKED
SETUP   T        MIN
END 0
",
    ],
    found: Finding::Open(3),
    cases: &[Case {
        name: "its own stop",
        edit: Edit::Parts(
            &[b"SETUP   T        MIN\nEND 0\n"],
            &[SUM_REFUSED, b"5", NO_BASIS],
        ),
        found: Finding::Open(4),
    }],
};

// Selects a range, and inserts a basis once another right-hand side is the present one.
const INSERT_IN_RANGE: &[u8] = b"         PROGRAM
         CONVERT
         SETUP('RANGE','R')
         MOVE(XRHS,'B')
         INSERT
         EXIT
         PEND
";

// The listing where the basis is taken.
const INSERTED: &[u8] = b"CONVERT T        ROWS 2 COLUMNS 1 ENTRIES 1
SETUP   T        MIN
INSERT  D        BASIC 1
END 0
";

/// INSERT, at whose selection the range is refused, as if the basis were taken. Its deck puts the row at the limit that the range gives.
pub const INSERT_REFUSED: Listing = Listing {
    name: "a range that is refused at INSERT",
    job: &[
        INSERT_IN_RANGE,
        problems::FAR_RANGE_OF_B,
        b"NAME          D\n XL X         LIM\nENDATA\n",
    ],
    text: &[INSERTED],
    found: Finding::Open(3),
    cases: &[
        Case {
            name: "another deck's line",
            edit: Edit::Text(b"INSERT  D", b"INSERT  T"),
            found: Finding::Unchecked(3),
        },
        Case {
            name: "no line",
            edit: Edit::From(b"INSERT", b"END 0\n"),
            found: Finding::Unchecked(3),
        },
        Case {
            name: "its own stop",
            edit: Edit::Parts(
                &[b"INSERT  D        BASIC 1\nEND 0\n"],
                &[SUM_REFUSED, b"5", NO_BASIS],
            ),
            found: Finding::Open(3),
        },
    ],
};

/// The same with a deck that puts a row at a limit that it hasn't.
pub const BAD_INSERT_REFUSED: Listing = Listing {
    name: "a range that is refused at INSERT of a bad deck",
    job: &[
        INSERT_IN_RANGE,
        problems::FAR_RANGE_OF_B,
        b"NAME          D\n XL X         COST\nENDATA\n",
    ],
    text: &[INSERTED],
    found: Finding::Unchecked(3),
    cases: &[],
};

/// A parametric run whose first limits are refused.
pub const FAR_POINT: Listing = Listing {
    name: "a point far away",
    job: &[
        b"         PROGRAM
         CONVERT
         SETUP
         MOVE(XCHCOL,'C')
         MOVE(XPARAM,999999999E18)
         MOVE(XPARMAX,999999999E18)
         PARARHS
         EXIT
         PEND
",
        ONE_DEMAND,
        b"    X         COST      1
    X         LOW       1
RHS
    B         LOW       .1E-18
    C         LOW       1
ENDATA
",
    ],
    text: &[
        b"CONVERT T        ROWS 2 COLUMNS 1 ENTRIES 2
SETUP   T        MIN
PARARHS FROM 999999999000000000000000000 CHANGE C
INTERVAL 1 FROM 999999999000000000000000000 TO 999999999000000000000000000
    1 COST     BS 1/10000000000000000000 1 0 0
    2 LOW      LL 1/10000000000000000000 1 1 0
    3 X        BS 1/10000000000000000000 1 0 0
PARARHS ENDS AT 999999999000000000000000000
END 0
",
    ],
    found: Finding::Unchecked(3),
    cases: &[
        Case {
            name: "another code",
            edit: Edit::Text(b"COST     BS", b"COST     ZZ"),
            found: Finding::Wrong(3),
        },
        Case {
            name: "an interval that goes back",
            edit: Edit::Text(b"TO 999999999000000000000000000", b"TO 1"),
            found: Finding::Wrong(3),
        },
        Case {
            name: "another word behind the interval",
            edit: Edit::Text(b"ENDS AT", b"ENDS OF"),
            found: Finding::Unchecked(3),
        },
        Case {
            name: "an infeasible opening",
            edit: Edit::From(
                b"PARARHS FROM",
                b"PARARHS INFEASIBLE STEPS 0 RAY CHECKED\n    2 LOW      -1\nEND 1\n",
            ),
            found: Finding::Unchecked(3),
        },
    ],
};
