// Combination rows: plans over them, and the sums that are refused.
use super::rows::{Row, Solved};
use super::runs::{first_unreported, first_unsolved, is_begun};
use std::test::Fail;
use test_decks::problems::{
    CHAIRS, GREAT_PRODUCT, NESTED, SUM_OF_B1_FROM_Y, SUM_OF_B1_TO_X, SUM_ROWS,
};
use test_decks::programs::{SOLVE, SOLVE_MAX, SOLVE_RANGE};

// What is printed of a combination that is the sum of two rows, with its plan.
const SUM_BY_PRIMAL: &[u8] = b"CONVERT T        ROWS 4 COLUMNS 2 ENTRIES 4
SETUP   T        MIN
PRIMAL OPTIMAL STEPS 2 OBJECTIVE -4 CHECKED
";

const SUM_SOLVED_ROWS: &[u8] = b"    1 COST     BS -4 4 NONE NONE 0
    2 A        UL 3 0 NONE 3 0
    3 B        BS 1 2 NONE 3 0
    4 S        UL 4 0 NONE 4 -1
";

const SUM_SOLVED_COLUMNS: &[u8] =
    b"    5 X        BS 3 -1 0 NONE 0\n    6 Y        BS 1 -1 0 NONE 0\n";

// Plans over combinations.
const SOLVED: [Solved; 6] = [
    Solved {
        name: "a combination row",
        job: &[SOLVE, SUM_ROWS, SUM_OF_B1_TO_X, SUM_OF_B1_FROM_Y],
        lines: SUM_BY_PRIMAL,
        rows: SUM_SOLVED_ROWS,
        columns: SUM_SOLVED_COLUMNS,
    },
    Solved {
        name: "a combination of a combination",
        job: &[SOLVE, NESTED],
        lines: b"CONVERT T        ROWS 6 COLUMNS 2 ENTRIES 5
SETUP   T        MIN
PRIMAL OPTIMAL STEPS 1 OBJECTIVE 2/3 CHECKED
",
        rows: b"    1 COST     BS 2/3 -2/3 NONE NONE 0
    2 A        LL 2 0 2 NONE 1/3
    3 B        BS 0 9 NONE 9 0
    4 S        BS 1 0 NONE 1 0
    5 U        BS 2 0 2 NONE 0
    6 Z        BS 2 -2 NONE NONE 0
",
        columns: b"    7 X        BS 2/3 1 0 NONE 0\n    8 Y        LL 0 2 0 NONE 5/3\n",
    },
    Solved {
        name: "a range on a combination",
        job: &[
            SOLVE_RANGE,
            b"NAME          T
ROWS
 N  COST
 N  A
 N  B
 DE S         A         1              B         2
COLUMNS
    X         COST      1              A         1
    Y         COST      3              B         1
RHS
    B         S         4
RANGES
    R         S         -1
ENDATA
",
        ],
        lines: b"CONVERT T        ROWS 4 COLUMNS 2 ENTRIES 4
SETUP   T        MIN
PRIMAL OPTIMAL STEPS 1 OBJECTIVE 3 CHECKED
",
        rows: b"    1 COST     BS 3 -3 NONE NONE 0
    2 A        BS 3 -3 NONE NONE 0
    3 B        BS 0 0 NONE NONE 0
    4 S        LL 3 1 3 4 1
",
        columns: b"    5 X        BS 3 1 0 NONE 0\n    6 Y        LL 0 3 0 NONE 1\n",
    },
    Solved {
        name: "a combination as objective",
        job: &[
            b"         PROGRAM
         CONVERT
         SETUP
         MOVE(XOBJ,'OBJ')
         PRIMAL
         SOLUTION
         EXIT
         PEND
NAME          T
ROWS
 G  A
 L  B
 DN OBJ       A         2              B         1
COLUMNS
    X         A         1
    Y         A         1              B         -1
RHS
    B         A         3              B         1
ENDATA
",
        ],
        lines: b"CONVERT T        ROWS 3 COLUMNS 2 ENTRIES 3
SETUP   T        MIN
PRIMAL OPTIMAL STEPS 2 OBJECTIVE 3 CHECKED
",
        rows: b"    1 A        LL 3 0 3 NONE 1
    2 B        BS -3 4 NONE 1 0
    3 OBJ      BS 3 -3 NONE NONE 0
",
        columns: b"    4 X        LL 0 2 0 NONE 1\n    5 Y        BS 3 1 0 NONE 0\n",
    },
    Solved {
        name: "total hours and a share",
        job: &[SOLVE_MAX, CHAIRS],
        lines: b"CONVERT PLAN     ROWS 5 COLUMNS 2 ENTRIES 4
SETUP   PLAN     MAX
PRIMAL OPTIMAL STEPS 3 OBJECTIVE 1120 CHECKED
",
        rows: b"    1 PROFIT   BS 1120 -1120 NONE NONE 0
    2 NORTH    BS 40 20 NONE 60 0
    3 SOUTH    UL 60 0 NONE 60 2
    4 HOURS    UL 100 0 NONE 100 10
    5 SHARE    BS 0 0 0 NONE 0
",
        columns: b"    6 CHAIRN   BS 20 20 0 NONE 0\n    7 CHAIRS   BS 40 18 0 NONE 0\n",
    },
    Solved {
        name: "parts by words",
        job: &[
            SOLVE,
            b"NAME          T         FREE
ROWS
 N COST
 L A
 L B
 DL S A 1
 DL S B 1
COLUMNS
 X COST -1 A 1
 Y COST -1 B 1
RHS
 B A 3 B 3
 B S 4
ENDATA
",
        ],
        lines: SUM_BY_PRIMAL,
        rows: SUM_SOLVED_ROWS,
        columns: SUM_SOLVED_COLUMNS,
    },
];

// Other programs over combinations.
const PLANS: [Row; 4] = [
    Row {
        name: "parts that cancel",
        job: &[
            b"         PROGRAM
         CONVERT
         SETUP
         PRIMAL
         RANGE
         EXIT
         PEND
NAME          T
ROWS
 N  COST
 G  A
 DE S         A         1
 DL D         A         1              S         -1
COLUMNS
    X         COST      1              A         1
RHS
    B         A         2              S         2
    B         D         0
ENDATA
",
        ],
        status: 0,
        listing: b"CONVERT T        ROWS 4 COLUMNS 1 ENTRIES 2
SETUP   T        MIN
PRIMAL OPTIMAL STEPS 1 OBJECTIVE 2 CHECKED
RANGE
SECTION 1 - ROWS AT LIMIT LEVEL
    2 A        LL 2 2 2
SECTION 2 - COLUMNS AT LIMIT LEVEL
SECTION 3 - ROWS AT INTERMEDIATE LEVEL
    3 S        BS 2 -1 NONE
    4 D        BS 0 NONE NONE
SECTION 4 - COLUMNS AT INTERMEDIATE LEVEL
    5 X        BS 2 1 0 NONE
END 0
",
    },
    Row {
        name: "a combination as change row",
        job: &[
            b"         PROGRAM
         CONVERT
         SETUP
         MOVE(XCHROW,'CHG')
         MOVE(XPARMAX,2)
         PARAOBJ
         EXIT
         PEND
NAME          T
ROWS
 N  COST
 L  A
 DN CHG       COST      1              A         -1
COLUMNS
    X         COST      -1             A         1
RHS
    B         A         3
ENDATA
",
        ],
        status: 0,
        listing: b"CONVERT T        ROWS 3 COLUMNS 1 ENTRIES 2
SETUP   T        MIN
PARAOBJ FROM 0 CHANGE CHG
INTERVAL 1 FROM 0 TO 2
    1 COST     BS -3 0 0 0
    2 A        UL 3 0 -1 -2
    3 CHG      BS -6 0 0 0
    4 X        BS 3 0 0 0
PARAOBJ ENDS AT 2
END 0
",
    },
    Row {
        name: "one objective after another",
        job: &[
            b"         PROGRAM
         CONVERT
         SETUP
         PRIMAL
         PRIMAL
         MOVE(XOBJ,'Z')
         PRIMAL
         SOLUTION
         MOVE(XOBJ,'COST')
         PRIMAL
         SOLUTION
         EXIT
         PEND
",
            NESTED,
        ],
        status: 0,
        listing: b"CONVERT T        ROWS 6 COLUMNS 2 ENTRIES 5
SETUP   T        MIN
PRIMAL OPTIMAL STEPS 1 OBJECTIVE 2/3 CHECKED
PRIMAL OPTIMAL STEPS 0 OBJECTIVE 2/3 CHECKED
PRIMAL OPTIMAL STEPS 1 OBJECTIVE 2 CHECKED
SOLUTION OPTIMAL
SECTION 1 - ROWS
NUMBER ROW AT ACTIVITY SLACK LOWER UPPER DUAL
    1 COST     BS 2/3 -2/3 NONE NONE 0
    2 A        LL 2 0 2 NONE 0
    3 B        BS 0 9 NONE 9 0
    4 S        BS 1 0 NONE 1 0
    5 U        LL 2 0 2 NONE 1
    6 Z        BS 2 -2 NONE NONE 0
SECTION 2 - COLUMNS
NUMBER COLUMN AT ACTIVITY COST LOWER UPPER REDUCED
    7 X        BS 2/3 3 0 NONE 0
    8 Y        BS 0 -1 0 NONE 0
PRIMAL OPTIMAL STEPS 1 OBJECTIVE 2/3 CHECKED
SOLUTION OPTIMAL
SECTION 1 - ROWS
NUMBER ROW AT ACTIVITY SLACK LOWER UPPER DUAL
    1 COST     BS 2/3 -2/3 NONE NONE 0
    2 A        LL 2 0 2 NONE 2
    3 B        BS 0 9 NONE 9 0
    4 S        UL 1 0 NONE 1 -10/3
    5 U        BS 2 0 2 NONE 0
    6 Z        BS 2 -2 NONE NONE 0
SECTION 2 - COLUMNS
NUMBER COLUMN AT ACTIVITY COST LOWER UPPER REDUCED
    7 X        BS 2/3 1 0 NONE 0
    8 Y        BS 0 2 0 NONE 0
END 0
",
    },
    Row {
        name: "a combination without parts",
        job: &[
            SOLVE,
            b"NAME          T
ROWS
 N  COST
 G  A
 DL S
COLUMNS
    X         COST      1              A         1
RHS
    B         A         2              S         -1
ENDATA
",
        ],
        status: 1,
        listing: b"CONVERT T        ROWS 3 COLUMNS 1 ENTRIES 2
SETUP   T        MIN
PRIMAL INFEASIBLE STEPS 1 RAY CHECKED
    3 S        1
END 1
",
    },
];

// Products and sums of combinations that are refused.
const OVERFLOWS: [Row; 2] = [
    Row {
        name: "a product of a combination",
        job: &[SOLVE, GREAT_PRODUCT],
        status: 20,
        listing: b"CONVERT T        ROWS 3 COLUMNS 1 ENTRIES 2
STOP 20 OVERFLOW F19 MUL 999999999000000000000000000 999999999000000000000000000 P 0 Q 0 I 3 J 4 TERM 0 THETA 0 CARD 3
BASIS NONE
WAY NONE
",
    },
    Row {
        name: "a sum of a combination",
        job: &[
            SOLVE,
            b"NAME          T
ROWS
 N  COST
 L  A
 L  B
 L  C
 DL S         C         1              A         17E10
 DL S         B         17E10
COLUMNS
    X         COST      1              A         999999999E18
    X         B         999999999E18
ENDATA
",
        ],
        status: 20,
        listing: b"CONVERT T        ROWS 5 COLUMNS 1 ENTRIES 3
STOP 20 OVERFLOW F19 ADD 169999999830000000000000000000000000000 169999999830000000000000000000000000000 P 0 Q 0 I 5 J 6 TERM 1 THETA 0 CARD 3
BASIS NONE
WAY NONE
",
    },
];

#[test]
fn combinations_are_the_sums_of_their_parts(rt: HostRuntime) -> Result<(), Fail> {
    let alloc = rt.alloc();
    assert_eq!(rt; first_unsolved(alloc, &SOLVED)?, None);
    assert_eq!(rt; first_unreported(alloc, &PLANS)?, None);
    for row in &OVERFLOWS {
        assert!(rt; is_begun(alloc, row)?, "{}", row.name);
    }
    Ok(())
}
