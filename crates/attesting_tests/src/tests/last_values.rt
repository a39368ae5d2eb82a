// Jobs whose parametric run ends at a value that no cell holds, with their listings.
use super::listings::{Case, Edit, Finding, Listing, finds};
use listing_claims::Checks;
use std::alloc::Global;
use std::test::Fail;
use test_decks::problems;

// The control program down to the first run.
const FIRST_RUN: &[u8] = b"         PROGRAM
         CONVERT
         SETUP
         MOVE(XCHROW,'CHG')
         MOVE(XPARMAX,1)
         PARAOBJ
";

// The same of a run of the right-hand side.
const FIRST_RHS_RUN: &[u8] = b"         PROGRAM
         CONVERT
         SETUP
         MOVE(XCHCOL,'C')
         MOVE(XPARMAX,1)
         MOVE(XRHS,'B')
         PARARHS
";

// The end of the control program.
const EXIT: &[u8] = b"         EXIT\n         PEND\n";

// A problem before its changes of the right-hand side.
const FALLING: &[u8] = b"NAME          T
ROWS
 N  COST
 L  R
COLUMNS
    X         COST      1              R         1
RHS
    B         R         1E-18
";

// The listing before the first run.
const SELECTED: &[u8] = b"CONVERT T        ROWS 2 COLUMNS 1 ENTRIES 2\nSETUP   T        MIN\n";

// What a run from 0 shows before the best point of its interval.
const RUN_FROM_0: &[u8] = b"PARAOBJ FROM 0 CHANGE CHG
INTERVAL 1 FROM 0 TO 1/99999999000000000000000000000000000000000000
";

// The line of an interval that is the last value alone.
const POINT_INTERVAL: &[u8] =
    b"INTERVAL 1 FROM 1/99999999000000000000000000000000000000000000 TO 1/99999999000000000000000000000000000000000000
";

// The point, and the direction along which the objective falls for ever past it.
const POINT_AND_DIRECTION: &[u8] = b"    1 COST     BS 0 0 0 0
    2 CHG      BS 0 0 0 0
    3 X        LL 0 0 1/1000000000000000000 -99999999000000000000000000
PARAOBJ UNBOUNDED PAST 1/99999999000000000000000000000000000000000000
    1 COST     0 1/1000000000000000000
    2 CHG      0 -99999999000000000000000000
    3 X        0 1
";

// The plan behind the run, before the activity of X.
const PLAN_TO_X: &[u8] = b"PRIMAL OPTIMAL STEPS 0 OBJECTIVE 0 CHECKED
SOLUTION OPTIMAL
SECTION 1 - ROWS
NUMBER ROW AT ACTIVITY SLACK LOWER UPPER DUAL
    1 COST     BS 0 0 NONE NONE 0
    2 CHG      BS 0 0 NONE NONE 0
SECTION 2 - COLUMNS
NUMBER COLUMN AT ACTIVITY COST LOWER UPPER REDUCED
    3 X        LL\x20";

// The best point of a run of the right-hand side.
const RHS_POINT: &[u8] = b"    1 COST     BS 0 0 0 0
    2 R        BS 0 0 0 0
    3 X        LL 0 0 1 0
";

// The rows and columns that conflict past it.
const RAY: &[u8] = b"    2 R        1\n    3 X        -1\n";

/// Listings of such runs.
pub const LAST_VALUES: [&Listing; 5] = [
    &Listing {
        name: "the program's end",
        job: &[FIRST_RUN, EXIT, problems::FAR_CHANGE],
        text: &[SELECTED, RUN_FROM_0, POINT_AND_DIRECTION, b"END 0\n"],
        found: Finding::Attested(3),
        cases: &[Case {
            name: "an earlier value",
            edit: Edit::Text(b"PAST 1/9", b"PAST 1/8"),
            found: Finding::Wrong(3),
        }],
    },
    &Listing {
        name: "no EXIT",
        job: &[FIRST_RUN, b"         PEND\n", problems::FAR_CHANGE],
        text: &[SELECTED, RUN_FROM_0, POINT_AND_DIRECTION, b"END 0\n"],
        found: Finding::Attested(3),
        cases: &[],
    },
    &Listing {
        name: "another run that is unbounded there",
        job: &[
            FIRST_RUN,
            b"         MOVE(XCHROW,'OTH')\n         PARAOBJ\n",
            EXIT,
            problems::TWO_CHANGES,
        ],
        text: &[
            b"CONVERT T        ROWS 3 COLUMNS 1 ENTRIES 3
SETUP   T        MIN
PARAOBJ FROM 0 CHANGE CHG
INTERVAL 1 FROM 0 TO 1/9999999900000000000000000000000000000000000
    1 COST     BS 0 0 0 0
    2 CHG      BS 0 0 0 0
    3 OTH      BS 0 0 0 0
    4 X        LL 0 0 1/1000000000000000000 -9999999900000000000000000
PARAOBJ UNBOUNDED PAST 1/9999999900000000000000000000000000000000000
    1 COST     0 1/1000000000000000000
    2 CHG      0 -9999999900000000000000000
    3 OTH      0 -99999999000000000000000000
    4 X        0 1
PARAOBJ UNBOUNDED STEPS 0 OBJECTIVE 0 CHECKED
    1 COST     0 1/1000000000000000000
    2 CHG      0 -9999999900000000000000000
    3 OTH      0 -99999999000000000000000000
    4 X        0 1
END 2
",
        ],
        found: Finding::Attested(4),
        cases: &[Case {
            name: "along another direction",
            edit: Edit::Text(b"1\nEND 2", b"-1\nEND 2"),
            found: Finding::Wrong(14),
        }],
    },
    &Listing {
        name: "another run of the right-hand side",
        job: &[
            FIRST_RHS_RUN,
            b"         PARARHS\n",
            EXIT,
            FALLING,
            b"    C         R         -99999999E18\nENDATA\n",
        ],
        text: &[
            SELECTED,
            b"PARARHS FROM 0 CHANGE C
INTERVAL 1 FROM 0 TO 1/99999999000000000000000000000000000000000000
",
            RHS_POINT,
            b"PARARHS INFEASIBLE PAST 1/99999999000000000000000000000000000000000000\n",
            RAY,
            b"PARARHS FROM 1/99999999000000000000000000000000000000000000 CHANGE C\n",
            POINT_INTERVAL,
            RHS_POINT,
            b"PARARHS INFEASIBLE PAST 1/99999999000000000000000000000000000000000000\n",
            RAY,
            b"END 0\n",
        ],
        found: Finding::Attested(4),
        cases: &[],
    },
    &Listing {
        name: "another run that is infeasible there",
        job: &[
            FIRST_RHS_RUN,
            b"         MOVE(XCHCOL,'D')\n         PARARHS\n",
            EXIT,
            FALLING,
            b"    C         R         -99999999E17
    D         R         -99999999E18
ENDATA
",
        ],
        text: &[
            SELECTED,
            b"PARARHS FROM 0 CHANGE C
INTERVAL 1 FROM 0 TO 1/9999999900000000000000000000000000000000000
",
            RHS_POINT,
            b"PARARHS INFEASIBLE PAST 1/9999999900000000000000000000000000000000000\n",
            RAY,
            b"PARARHS INFEASIBLE STEPS 0 RAY CHECKED\n",
            RAY,
            b"END 1\n",
        ],
        found: Finding::Attested(4),
        cases: &[],
    },
];

/// What follows the run of an objective whose breakpoint is 1 over a number of more than 40 digits.
pub struct Continuation {
    pub name: &'static str,
    /// The statements behind the run, down to EXIT.
    pub statements: &'static [u8],
    /// The parts of the listing behind what the run shows, one after another.
    pub shown: &'static [&'static [u8]],
    pub found: Finding,
}

impl Continuation {
    /// Whether a checker finds this of the whole listing.
    pub fn is_found<T: Checks>(&self, alloc: Global) -> Result<bool, Fail> {
        let mut text = [SELECTED, RUN_FROM_0, POINT_AND_DIRECTION].concat(alloc)?;
        text.extend_from_slice(&self.shown.concat(alloc)?)?;
        finds::<T>(
            alloc,
            &[FIRST_RUN, self.statements, EXIT, problems::FAR_CHANGE],
            &text,
            self.found,
        )
    }
}

/// Statements behind such a run, other runs among them.
pub const CONTINUATIONS: [Continuation; 7] = [
    Continuation {
        name: "other statements",
        statements: b"         TITLE('ON')
         MOVE(XPARMAX,2)
         MOVE(XOBJ,'COST')
         SETUP
         PRIMAL
         SOLUTION
         BCDOUT
",
        shown: &[
            b"TITLE ON\nSETUP   T        MIN\n",
            PLAN_TO_X,
            b"0 1/1000000000000000000 0 NONE 1/1000000000000000000
BCDOUT  T        CARDS 8
END 0
",
        ],
        found: Finding::Attested(8),
    },
    Continuation {
        name: "a wrong solution",
        statements: b"         PRIMAL\n         SOLUTION\n",
        shown: &[
            PLAN_TO_X,
            b"1 1/1000000000000000000 0 NONE 1/1000000000000000000\nEND 0\n",
        ],
        found: Finding::Wrong(13),
    },
    Continuation {
        name: "MOVE to XPARAM and another run",
        statements: b"         MOVE(XPARAM,0)\n         PARAOBJ\n",
        shown: &[RUN_FROM_0, POINT_AND_DIRECTION, b"END 0\n"],
        found: Finding::Attested(4),
    },
    Continuation {
        name: "INITIALZ and another run",
        statements: b"         INITIALZ
         MOVE(XCHROW,'CHG')
         MOVE(XPARMAX,1)
         PARAOBJ
",
        shown: &[RUN_FROM_0, POINT_AND_DIRECTION, b"END 0\n"],
        found: Finding::Attested(4),
    },
    Continuation {
        name: "another run from there",
        statements: b"         PARAOBJ\n",
        shown: &[
            b"PARAOBJ FROM 1/99999999000000000000000000000000000000000000 CHANGE CHG\n",
            POINT_INTERVAL,
            POINT_AND_DIRECTION,
            b"END 0\n",
        ],
        found: Finding::Attested(4),
    },
    Continuation {
        name: "another run that says it begins at 0",
        statements: b"         PARAOBJ\n",
        shown: &[
            b"PARAOBJ FROM 0 CHANGE CHG\n",
            POINT_INTERVAL,
            POINT_AND_DIRECTION,
            b"END 0\n",
        ],
        found: Finding::Wrong(12),
    },
    Continuation {
        name: "another run, past its last value",
        statements: b"         MOVE(XPARMAX,0)\n         PARAOBJ\n",
        shown: &[b"STOP 10 VERB FAULT 9 CARD 8\n"],
        found: Finding::Attested(3),
    },
];
