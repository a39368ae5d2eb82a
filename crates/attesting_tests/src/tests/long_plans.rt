// Plans and verdicts with numbers of more than 128 bits, worked out by hand: each number of a listing follows from those of its job
// by a product or a quotient.
use super::listings::{Case, Edit, Finding, Listing};
use test_decks::parts::{PLAN_COLUMNS, PLAN_ROWS};
use test_decks::programs::{PARAOBJ_TO_5, SOLVE};
use test_decks::{problems, runs};

// The listing of these problems before PRIMAL or a run.
const LONG_SELECTED: &[u8] = b"CONVERT LONG     ROWS 4 COLUMNS 2 ENTRIES 5\nSETUP   LONG     MIN\n";

/// A column that is a great multiple of another.
pub const CHAIN: Listing = Listing {
    name: "chain",
    job: &[SOLVE, problems::LONG],
    text: &[
        LONG_SELECTED,
        b"PRIMAL OPTIMAL STEPS 2 OBJECTIVE 4999999800000002000000000000000000000000000000000000/3 CHECKED
",
        PLAN_ROWS,
        b"    1 COST     BS 4999999800000002000000000000000000000000000000000000/3 -4999999800000002000000000000000000000000000000000000/3 NONE NONE 0
    2 CHG      BS 9999999600000004000000000000000000000000000000000000/3 -9999999600000004000000000000000000000000000000000000/3 NONE NONE 0
    3 LOW      LL 99999998000000000000000000 0 99999998000000000000000000 NONE 49999999000000000000000000/3
    4 LINK     LL 0 0 0 NONE 1/2
",
        PLAN_COLUMNS,
        b"    5 X        BS 99999998000000000000000000/3 0 0 NONE 0
    6 Y        BS 9999999600000004000000000000000000000000000000000000/3 1/2 0 NONE 0
END 0
",
    ],
    found: Finding::Attested(4),
    cases: &[
        Case {
            name: "an objective not in lowest terms",
            edit: Edit::Text(
                b"OBJECTIVE 4999999800000002000000000000000000000000000000000000/3",
                b"OBJECTIVE 9999999600000004000000000000000000000000000000000000/6",
            ),
            found: Finding::Wrong(3),
        },
        Case {
            name: "a half as two quarters",
            edit: Edit::Text(b" 1/2 0 NONE 0\nEND", b" 2/4 0 NONE 0\nEND"),
            found: Finding::Wrong(4),
        },
        Case {
            name: "minus zero",
            edit: Edit::Text(b"4 LINK     LL 0", b"4 LINK     LL -0"),
            found: Finding::Wrong(4),
        },
        Case {
            name: "a zero in front",
            edit: Edit::Text(
                b"3 LOW      LL 99999998000000000000000000",
                b"3 LOW      LL 099999998000000000000000000",
            ),
            found: Finding::Wrong(4),
        },
        Case {
            name: "a whole number over one",
            edit: Edit::Text(
                b"3 LOW      LL 99999998000000000000000000",
                b"3 LOW      LL 99999998000000000000000000/1",
            ),
            found: Finding::Wrong(4),
        },
        Case {
            name: "one over zero",
            edit: Edit::Text(
                b"OBJECTIVE 4999999800000002000000000000000000000000000000000000/3",
                b"OBJECTIVE 1/0",
            ),
            found: Finding::Wrong(3),
        },
        Case {
            name: "another digit of the objective",
            edit: Edit::Text(
                b"OBJECTIVE 4999999800000002000000000000000000000000000000000000/3",
                b"OBJECTIVE 4999999800000002000010000000000000000000000000000000/3",
            ),
            found: Finding::Wrong(3),
        },
        Case {
            name: "another digit of an activity",
            edit: Edit::Text(
                b"6 Y        BS 9999999600000004000000000000000000000000000000000000/3",
                b"6 Y        BS 0999999600000004000000000000000000000000000000000000/3",
            ),
            found: Finding::Wrong(4),
        },
        Case {
            name: "another digit of a dual value",
            edit: Edit::Text(
                b"NONE 49999999000000000000000000/3",
                b"NONE 49999999000000000000100000/3",
            ),
            found: Finding::Wrong(4),
        },
        Case {
            name: "the other sign of an activity",
            edit: Edit::Text(b"5 X        BS ", b"5 X        BS -"),
            found: Finding::Wrong(4),
        },
        Case {
            name: "a verdict that was not checked",
            edit: Edit::Text(b"CHECKED", b"UNCHECKED MUL 2 3"),
            found: Finding::Attested(4),
        },
    ],
};

/// The objective changed along a second one.
pub const CHAIN_OBJECTIVE: Listing = Listing {
    name: "chain, another objective",
    job: &[PARAOBJ_TO_5, problems::LONG],
    text: &[
        LONG_SELECTED,
        b"PARAOBJ FROM 0 CHANGE CHG
INTERVAL 1 FROM 0 TO 5
    1 COST     BS 4999999800000002000000000000000000000000000000000000/3 0 0 0
    2 CHG      BS 9999999600000004000000000000000000000000000000000000/3 0 0 0
    3 LOW      LL 99999998000000000000000000 0 49999999000000000000000000/3 99999998000000000000000000/3
    4 LINK     LL 0 0 1/2 1
    5 X        BS 99999998000000000000000000/3 0 0 0
    6 Y        BS 9999999600000004000000000000000000000000000000000000/3 0 0 0
PARAOBJ ENDS AT 5
END 0
",
    ],
    found: Finding::Attested(3),
    cases: &[
        Case {
            name: "another digit of a rate",
            edit: Edit::Text(
                b"99999998000000000000000000/3\n    4",
                b"99909998000000000000000000/3\n    4",
            ),
            found: Finding::Wrong(3),
        },
        Case {
            name: "another digit of an activity",
            edit: Edit::Text(
                b"6 Y        BS 9999999600000004000000000000000000000000000000000000/3",
                b"6 Y        BS 9999909600000004000000000000000000000000000000000000/3",
            ),
            found: Finding::Wrong(3),
        },
        Case {
            name: "before the last value",
            edit: Edit::Text(b"TO 5", b"TO 4"),
            found: Finding::Wrong(3),
        },
    ],
};

/// A demand that grows.
pub const CHAIN_RHS: Listing = Listing {
    name: "chain, another demand",
    job: &[
        b"         PROGRAM
         CONVERT
         SETUP
         MOVE(XCHCOL,'C')
         MOVE(XPARMAX,5)
         PARARHS
         EXIT
         PEND
",
        problems::LONG,
    ],
    text: &[
        LONG_SELECTED,
        b"PARARHS FROM 0 CHANGE C
INTERVAL 1 FROM 0 TO 5
    1 COST     BS 4999999800000002000000000000000000000000000000000000/3 49999999000000000000000000/3 0 0
    2 CHG      BS 9999999600000004000000000000000000000000000000000000/3 99999998000000000000000000/3 0 0
    3 LOW      LL 99999998000000000000000000 1 49999999000000000000000000/3 0
    4 LINK     LL 0 0 1/2 0
    5 X        BS 99999998000000000000000000/3 1/3 0 0
    6 Y        BS 9999999600000004000000000000000000000000000000000000/3 99999998000000000000000000/3 0 0
PARARHS ENDS AT 5
END 0
",
    ],
    found: Finding::Attested(3),
    cases: &[
        Case {
            name: "another digit of a rate",
            edit: Edit::Text(
                b"99999998000000000000000000/3 0 0\nPARARHS",
                b"99909998000000000000000000/3 0 0\nPARARHS",
            ),
            found: Finding::Wrong(3),
        },
        Case {
            name: "a rate not in lowest terms",
            edit: Edit::Text(b"1/3 0 0", b"2/6 0 0"),
            found: Finding::Wrong(3),
        },
        Case {
            name: "another digit of a dual value",
            edit: Edit::Text(
                b" 1 49999999000000000000000000/3",
                b" 1 49099999000000000000000000/3",
            ),
            found: Finding::Wrong(3),
        },
    ],
};

/// Limits that conflict by a great factor.
pub const LONG_RAY: Listing = Listing {
    name: "long ray",
    job: &[
        runs::PRIMAL,
        b"NAME          RAY
ROWS
 N  COST
 G  LOW
 L  LINK
 L  HIGH
COLUMNS
    X         COST      1              LOW       .1E-18
    X         LINK      99999998E18
    Y         LINK      -1             HIGH      3
RHS
    B         LOW       3
    B         HIGH      2
ENDATA
",
    ],
    text: &[
        b"CONVERT RAY      ROWS 4 COLUMNS 2 ENTRIES 5
SETUP   RAY      MIN
PRIMAL INFEASIBLE STEPS 1 RAY CHECKED
    2 LOW      -999999980000000000000000000000000000000000000
    3 LINK     1
    4 HIGH     1/3
END 1
",
    ],
    found: Finding::Attested(3),
    cases: &[
        Case {
            name: "the ray times three",
            edit: Edit::Text(
                b"-999999980000000000000000000000000000000000000
    3 LINK     1
    4 HIGH     1/3",
                b"-2999999940000000000000000000000000000000000000
    3 LINK     3
    4 HIGH     1",
            ),
            found: Finding::Attested(3),
        },
        Case {
            name: "another digit",
            edit: Edit::Text(
                b"LOW      -999999980000000000000000000000000000000000000",
                b"LOW      -999999980000000000000000000000100000000000000",
            ),
            found: Finding::Wrong(3),
        },
        Case {
            name: "a factor left out",
            edit: Edit::Text(b"    4 HIGH     1/3\n", b""),
            found: Finding::Wrong(3),
        },
        Case {
            name: "the ray turned",
            edit: Edit::Text(
                b"-999999980000000000000000000000000000000000000
    3 LINK     1
    4 HIGH     1/3",
                b"999999980000000000000000000000000000000000000
    3 LINK     -1
    4 HIGH     -1/3",
            ),
            found: Finding::Wrong(3),
        },
    ],
};

/// A direction that grows by great steps.
pub const LONG_DIRECTION: Listing = Listing {
    name: "long direction",
    job: &[
        b"         PROGRAM
         CONVERT
         SETUP('MAX')
         PRIMAL
         EXIT
         PEND
NAME          ENDLESS
ROWS
 N  PROFIT
 L  LINK
COLUMNS
    X         LINK      -99999998E18
    Y         PROFIT    3E18           LINK      .1E-18
RHS
    B         LINK      .5
ENDATA
",
    ],
    text: &[
        b"CONVERT ENDLESS  ROWS 2 COLUMNS 2 ENTRIES 3
SETUP   ENDLESS  MAX
PRIMAL UNBOUNDED STEPS 1 OBJECTIVE 15000000000000000000000000000000000000 CHECKED
    1 PROFIT   15000000000000000000000000000000000000 2999999940000000000000000000000000000000000000000000000000000000
    2 LINK     1/2 0
    3 X        0 1
    4 Y        5000000000000000000 999999980000000000000000000000000000000000000
END 2
",
    ],
    found: Finding::Attested(3),
    cases: &[
        Case {
            name: "another digit of the direction",
            edit: Edit::Text(
                b"999999980000000000000000000000000000000000000\nEND",
                b"999999980000100000000000000000000000000000000\nEND",
            ),
            found: Finding::Wrong(3),
        },
        Case {
            name: "another digit of its profit",
            edit: Edit::Text(
                b"2999999940000000000000000000000000000000000000000000000000000000",
                b"2099999940000000000000000000000000000000000000000000000000000000",
            ),
            found: Finding::Wrong(3),
        },
        Case {
            name: "a direction of zeros",
            edit: Edit::Text(
                b"2999999940000000000000000000000000000000000000000000000000000000
    2 LINK     1/2 0
    3 X        0 1
    4 Y        5000000000000000000 999999980000000000000000000000000000000000000",
                b"0
    2 LINK     1/2 0
    3 X        0 0
    4 Y        5000000000000000000 0",
            ),
            found: Finding::Wrong(3),
        },
    ],
};
