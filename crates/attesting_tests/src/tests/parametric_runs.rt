// Parametric runs.
use super::listings::{Case, Edit, Finding, Listing};
use test_decks::programs::{PARAOBJ_TO_5, PARARHS_TO_5};
use test_decks::{listings, problems, runs};

// The best point in the first interval.
const FIRST_POINT: &[u8] = b"    1 COST     BS -8 0 0 0
    2 CHG      BS 0 0 0 0
    3 LIM      UL 4 0 -2 0
    4 X        LL 0 0 1 -1
    5 Y        BS 4 0 0 0
";

// The best point in the second interval.
const SECOND_POINT: &[u8] = b"    1 COST     BS -5 0 0 0
    2 CHG      BS -3 0 0 0
    3 LIM      UL 4 0 -2 0
    4 X        UL 3 0 1 -1
    5 Y        BS 1 0 0 0
";

// Both intervals with their points.
const BOTH_INTERVALS: &[&[u8]] = &[
    b"INTERVAL 1 FROM 0 TO 1\n",
    FIRST_POINT,
    b"INTERVAL 2 FROM 1 TO 5\n",
    SECOND_POINT,
];

/// A parametric run of the objective.
pub const TWO_INTERVALS: Listing = Listing {
    name: "paraobj two intervals",
    job: &[runs::PARAOBJ_BND_TO_5, problems::TWO],
    text: &[
        b"CONVERT TWO      ROWS 3 COLUMNS 2 ENTRIES 5
SETUP   TWO      MIN
PARAOBJ FROM 0 CHANGE CHG
INTERVAL 1 FROM 0 TO 1
",
        FIRST_POINT,
        b"INTERVAL 2 FROM 1 TO 5\n",
        SECOND_POINT,
        b"PARAOBJ ENDS AT 5\nEND 0\n",
    ],
    found: Finding::Attested(3),
    cases: &[
        Case {
            name: "an interval split",
            edit: Edit::Parts(
                &[b"INTERVAL 2 FROM 1 TO 5\n", SECOND_POINT],
                &[
                    b"INTERVAL 2 FROM 1 TO 2\n",
                    SECOND_POINT,
                    b"INTERVAL 3 FROM 2 TO 5\n",
                    SECOND_POINT,
                ],
            ),
            found: Finding::Attested(3),
        },
        Case {
            name: "a point in front",
            edit: Edit::Parts(
                BOTH_INTERVALS,
                &[
                    b"INTERVAL 1 FROM 0 TO 0
    1 COST     BS -8 7 0 0
    2 CHG      BS 0 7 0 0
    3 LIM      UL 4 7 -2 7
    4 X        LL 0 7 1 7
    5 Y        BS 4 7 0 7
INTERVAL 2 FROM 0 TO 1
",
                    FIRST_POINT,
                    b"INTERVAL 3 FROM 1 TO 5\n",
                    SECOND_POINT,
                ],
            ),
            found: Finding::Attested(3),
        },
        Case {
            name: "right at both ends alone",
            edit: Edit::Parts(
                BOTH_INTERVALS,
                &[
                    b"INTERVAL 1 FROM 0 TO 5
    1 COST     BS -8 3/5 0 0
    2 CHG      BS 0 -3/5 0 0
    3 LIM      UL 4 0 -2 0
    4 X        LL 0 3/5 1 -1
    5 Y        BS 4 -3/5 0 0
",
                ],
            ),
            found: Finding::Wrong(3),
        },
        Case {
            name: "past the last value",
            edit: Edit::Parts(
                &[b"TO 5\n", SECOND_POINT, b"PARAOBJ ENDS AT 5"],
                &[b"TO 6\n", SECOND_POINT, b"PARAOBJ ENDS AT 6"],
            ),
            found: Finding::Wrong(3),
        },
        Case {
            name: "before the last value",
            edit: Edit::Parts(
                &[b"TO 5\n", SECOND_POINT, b"PARAOBJ ENDS AT 5"],
                &[b"TO 4\n", SECOND_POINT, b"PARAOBJ ENDS AT 4"],
            ),
            found: Finding::Wrong(3),
        },
        Case {
            name: "an end that is not reached",
            edit: Edit::Text(b"TO 5", b"TO 4"),
            found: Finding::Wrong(3),
        },
        Case {
            name: "the first interval carried on",
            edit: Edit::Parts(BOTH_INTERVALS, &[b"INTERVAL 1 FROM 0 TO 5\n", FIRST_POINT]),
            found: Finding::Wrong(3),
        },
        Case {
            name: "a point behind the first interval",
            edit: Edit::Parts(
                &[b"INTERVAL 2 FROM 1 TO 5\n", SECOND_POINT],
                &[
                    b"INTERVAL 2 FROM 1 TO 1\n",
                    SECOND_POINT,
                    b"INTERVAL 3 FROM 1 TO 5\n",
                    SECOND_POINT,
                ],
            ),
            found: Finding::Wrong(3),
        },
        Case {
            name: "a gap",
            edit: Edit::Text(b"FROM 1 TO 5", b"FROM 2 TO 5"),
            found: Finding::Wrong(3),
        },
        Case {
            name: "a number twice",
            edit: Edit::Text(b"INTERVAL 2", b"INTERVAL 1"),
            found: Finding::Wrong(3),
        },
        Case {
            name: "no interval",
            edit: Edit::Parts(BOTH_INTERVALS, &[]),
            found: Finding::Wrong(3),
        },
        Case {
            name: "another beginning",
            edit: Edit::Text(b"INTERVAL 1 FROM 0", b"INTERVAL 1 FROM 1/2"),
            found: Finding::Wrong(3),
        },
        Case {
            name: "an optimal opening",
            edit: Edit::From(
                b"PARAOBJ FROM",
                b"PARAOBJ OPTIMAL STEPS 0 OBJECTIVE -8 CHECKED\nEND 0\n",
            ),
            found: Finding::Wrong(3),
        },
        Case {
            name: "another closing",
            edit: Edit::Text(b"ENDS AT 5", b"INFEASIBLE PAST 5"),
            found: Finding::Wrong(3),
        },
    ],
};

/// A parametric run whose objective is unbounded past a value.
pub const LAMPS: Listing = Listing {
    name: "lamps",
    job: &[
        b"* A lamp maker: a lamp takes 12 of material and 2.5 hours of 40, or is bought
* ready-made for 25. It sells for 10 plus theta. From which price on is it made,
* and up to which price does the question make sense?
         PROGRAM
         TITLE('THE PRICE OF A LAMP')
         CONVERT
         SETUP('MAX')
         MOVE(XCHROW,'SOLD')
         MOVE(XPARMAX,50)
         PARAOBJ
         EXIT
         PEND
NAME          LAMPS
ROWS
 N  PROFIT
 N  SOLD
 L  STOCK
 L  HOURS
COLUMNS
    SELL      PROFIT    10             SOLD      1
    SELL      STOCK     1
    MAKE      PROFIT    -12            STOCK     -1
    MAKE      HOURS     2.5
    BUY       PROFIT    -25            STOCK     -1
RHS
    WEEK      HOURS     40
ENDATA
",
    ],
    text: &[
        b"TITLE THE PRICE OF A LAMP
CONVERT LAMPS    ROWS 4 COLUMNS 3 ENTRIES 8
SETUP   LAMPS    MAX
PARAOBJ FROM 0 CHANGE SOLD
INTERVAL 1 FROM 0 TO 2
    1 PROFIT   BS 0 0 0 0
    2 SOLD     BS 0 0 0 0
    3 STOCK    UL 0 0 10 1
    4 HOURS    BS 0 0 0 0
    5 SELL     BS 0 0 0 0
    6 MAKE     LL 0 0 -2 1
    7 BUY      LL 0 0 -15 1
INTERVAL 2 FROM 2 TO 15
    1 PROFIT   BS -32 0 0 0
    2 SOLD     BS 16 0 0 0
    3 STOCK    UL 0 0 10 1
    4 HOURS    UL 40 0 -4/5 2/5
    5 SELL     BS 16 0 0 0
    6 MAKE     BS 16 0 0 0
    7 BUY      LL 0 0 -15 1
PARAOBJ UNBOUNDED PAST 15
    1 PROFIT   -32 -15
    2 SOLD     16 1
    3 STOCK    0 0
    4 HOURS    40 0
    5 SELL     16 1
    6 MAKE     16 0
    7 BUY      0 1
END 0
",
    ],
    found: Finding::Attested(4),
    cases: &[
        Case {
            name: "another direction",
            edit: Edit::Text(b"    2 SOLD     16 1\n", b"    2 SOLD     16 0\n"),
            found: Finding::Wrong(4),
        },
        Case {
            name: "an earlier value",
            edit: Edit::Text(b"UNBOUNDED PAST 15", b"UNBOUNDED PAST 14"),
            found: Finding::Wrong(4),
        },
        Case {
            name: "an end in place of the closing",
            edit: Edit::From(b"PARAOBJ UNBOUNDED", b"PARAOBJ ENDS AT 15\nEND 0\n"),
            found: Finding::Wrong(4),
        },
    ],
};

/// A parametric run whose opening is unbounded.
pub const UNBOUNDED_OPENING: Listing = Listing {
    name: "unbounded opening",
    job: &[PARAOBJ_TO_5, problems::ENDLESS_UP_TO_1],
    text: &[listings::ENDLESS_FOLLOWED],
    found: Finding::Attested(3),
    cases: &[Case {
        name: "another objective",
        edit: Edit::Text(b"OBJECTIVE 0", b"OBJECTIVE 1"),
        found: Finding::Wrong(3),
    }],
};

// The ray past the value 2.
const RAY_PAST_2: &[u8] = b"    2 LOW      -1\n    3 X        1\n";

/// A parametric run that ends with a ray.
pub const INFEASIBLE_PAST: Listing = Listing {
    name: "infeasible past",
    job: &[PARARHS_TO_5, problems::BOUNDED_ONE],
    text: &[listings::ONE_SET_UP, listings::BOUNDED_ONE_FOLLOWED],
    found: Finding::Attested(3),
    cases: &[
        Case {
            name: "the ray times seven",
            edit: Edit::Text(RAY_PAST_2, b"    2 LOW      -7\n    3 X        7\n"),
            found: Finding::Attested(3),
        },
        Case {
            name: "the ray turned",
            edit: Edit::Text(RAY_PAST_2, b"    2 LOW      1\n    3 X        -1\n"),
            found: Finding::Wrong(3),
        },
        Case {
            name: "no ray",
            edit: Edit::Text(RAY_PAST_2, b""),
            found: Finding::Wrong(3),
        },
        Case {
            name: "lines exchanged",
            edit: Edit::Text(RAY_PAST_2, b"    3 X        1\n    2 LOW      -1\n"),
            found: Finding::Wrong(3),
        },
        Case {
            name: "a zero",
            edit: Edit::Text(
                RAY_PAST_2,
                b"    1 COST     0\n    2 LOW      -1\n    3 X        1\n",
            ),
            found: Finding::Wrong(3),
        },
        Case {
            name: "an earlier value",
            edit: Edit::Text(b"PAST 2", b"PAST 1"),
            found: Finding::Wrong(3),
        },
        Case {
            name: "a later value",
            edit: Edit::Text(b"PAST 2", b"PAST 3"),
            found: Finding::Wrong(3),
        },
        Case {
            name: "a later value and interval",
            edit: Edit::Text(
                b"TO 2
    1 COST     BS 1 1 0 0
    2 LOW      LL 1 1 1 0
    3 X        BS 1 1 0 0
PARARHS INFEASIBLE PAST 2",
                b"TO 3
    1 COST     BS 1 1 0 0
    2 LOW      LL 1 1 1 0
    3 X        BS 1 1 0 0
PARARHS INFEASIBLE PAST 3",
            ),
            found: Finding::Wrong(3),
        },
    ],
};

// The best point where the farm delivers all that it has.
const FARM_AT_40: &[u8] = b"    1 COST     BS 70 5 0 0
    2 NEED     LL 30 1 5 0
    3 TRIPS    BS 10 1 0 0
    4 FARM     UL 40 0 -2 0
    5 COOP     BS -10 1 0 0
";

/// Two parametric runs of the right-hand side.
pub const MILK: Listing = Listing {
    name: "milk",
    job: &[
        b"* A dairy needs 30 churns of milk a day, and theta more. A farm has up to 40 at
* 3 each; a cooperative has as many as one likes, at 5. The van makes 28 trips,
* and takes two churns of the farm on one, but only one of the cooperative.
         PROGRAM
         TITLE('MORE MILK')
         CONVERT
         SETUP('BOUND','DAY')
         MOVE(XCHCOL,'MORE')
         MOVE(XPARMAX,15)
         PARARHS
         MOVE(XPARMAX,100)
         PARARHS
         EXIT
         PEND
NAME          DAIRY
ROWS
 N  COST
 G  NEED
 L  TRIPS
COLUMNS
    FARM      COST      3              NEED      1
    FARM      TRIPS     .5
    COOP      COST      5              NEED      1
    COOP      TRIPS     1
RHS
    TODAY     NEED      30             TRIPS     28
    MORE      NEED      1
BOUNDS
 UP DAY       FARM      40
ENDATA
",
    ],
    text: &[
        b"TITLE MORE MILK
CONVERT DAIRY    ROWS 3 COLUMNS 2 ENTRIES 6
SETUP   DAIRY    MIN
PARARHS FROM 0 CHANGE MORE
INTERVAL 1 FROM 0 TO 10
    1 COST     BS 90 3 0 0
    2 NEED     LL 30 1 3 0
    3 TRIPS    BS 15 1/2 0 0
    4 FARM     BS 30 1 0 0
    5 COOP     LL 0 0 2 0
INTERVAL 2 FROM 10 TO 15
",
        FARM_AT_40,
        b"PARARHS ENDS AT 15
PARARHS FROM 15 CHANGE MORE
INTERVAL 1 FROM 15 TO 18
",
        FARM_AT_40,
        b"PARARHS INFEASIBLE PAST 18
    2 NEED     -1
    3 TRIPS    1
    4 FARM     1/2
END 0
",
    ],
    found: Finding::Attested(5),
    cases: &[Case {
        name: "another beginning of the second",
        edit: Edit::Text(b"PARARHS FROM 15", b"PARARHS FROM 0"),
        found: Finding::Wrong(18),
    }],
};

/// A parametric run of the right-hand side in two intervals.
pub const RHS_INTERVALS: Listing = Listing {
    name: "pararhs two intervals",
    job: &[PARARHS_TO_5, problems::TWO_SOURCES],
    text: &[listings::TWO_SOURCES_FOLLOWED],
    found: Finding::Attested(3),
    cases: &[],
};

/// One that is a point.
pub const RHS_POINT: Listing = Listing {
    name: "pararhs point interval",
    job: &[runs::PARARHS_BND_TO_0, problems::BOUNDED_ONE],
    text: &[listings::ONE_SET_UP, listings::BOUNDED_ONE_AT_0],
    found: Finding::Attested(3),
    cases: &[],
};
