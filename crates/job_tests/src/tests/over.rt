// Problems over which jobs of several files run.
use super::frames::{CONVERTED, Jobs, SET_UP, SET_UP_BND};
use test_decks::listings::TWO_SET_UP;
use test_decks::problems::{CONFLICT, ENDATA, ENDLESS, ONE, PLAN, TESTPROB_CARDS, TWO};

/// What CONVERT prints of the problem ONE.
pub const ONE_CONVERTED: &[u8] = b"CONVERT ONE      ROWS 2 COLUMNS 1 ENTRIES 2\n";

/// Over the problem ONE, before it is set up.
pub const OVER_ONE: Jobs = Jobs {
    program: CONVERTED,
    problem: &[ONE],
    listing: ONE_CONVERTED,
};

/// Over TESTPROB, with its set BND1 of bounds.
pub const OVER_TESTPROB: Jobs = Jobs {
    program: b"         PROGRAM\n         CONVERT\n         SETUP('BOUND','BND1')\n",
    problem: &[TESTPROB_CARDS, ENDATA],
    listing: b"CONVERT TESTPROB ROWS 4 COLUMNS 3 ENTRIES 9\nSETUP   TESTPROB MIN\n",
};

/// The plan of TESTPROB.
pub const TESTPROB_ROWS: &[u8] = b"    1 COST     BS 54 -54 NONE NONE 0
    2 LIM1     BS 3 2 NONE 5 0
    3 LIM2     LL 10 0 10 NONE 1
    4 MYEQN    EQ 7 0 7 7 8
";

pub const TESTPROB_COLUMNS: &[u8] = b"    5 XONE     BS 4 1 0 4 0
    6 YTWO     LL -1 4 -1 1 12
    7 ZTHREE   BS 6 9 0 NONE 0
";

/// Over the plan of three columns, with its set BND of bounds.
pub const OVER_PLAN: Jobs = Jobs {
    program: SET_UP_BND,
    problem: &[PLAN],
    listing: b"CONVERT PLAN     ROWS 4 COLUMNS 3 ENTRIES 12\nSETUP   PLAN     MIN\n",
};

/// Over a lower limit above an upper one.
pub const OVER_CONFLICT: Jobs = Jobs {
    program: SET_UP,
    problem: &[CONFLICT],
    listing: b"CONVERT T        ROWS 3 COLUMNS 1 ENTRIES 3\nSETUP   T        MIN\n",
};

/// Over a column that nothing limits.
pub const OVER_ENDLESS: Jobs = Jobs {
    program: SET_UP,
    problem: &[ENDLESS],
    listing: b"CONVERT T        ROWS 1 COLUMNS 1 ENTRIES 1\nSETUP   T        MIN\n",
};

/// Over two columns under one limit, with the set BND of bounds.
pub const OVER_TWO: Jobs = Jobs {
    program: SET_UP_BND,
    problem: &[TWO],
    listing: TWO_SET_UP,
};
