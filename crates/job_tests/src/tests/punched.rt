// Worked jobs that punch decks.
use super::rows::DeckRow;
use test_decks::problems::{ONE, RANGED_ONE};

/// Programs that punch decks.
pub const DECKS: [DeckRow; 2] = [
    DeckRow {
        name: "bcdout one",
        job: &[
            b"         PROGRAM
         CONVERT
         BCDOUT
         EXIT
         PEND
",
            ONE,
        ],
        status: 0,
        listing: b"CONVERT ONE      ROWS 2 COLUMNS 1 ENTRIES 2\nBCDOUT  ONE      CARDS 10\nEND 0\n",
        cards: &[ONE],
    },
    DeckRow {
        name: "free revision",
        job: &[
            b"         PROGRAM
         CONVERT
         REVISE
         SETUP('BOUND','BND')
         PRIMAL
         SOLUTION
         BCDOUT
         EXIT
         PEND
",
            RANGED_ONE,
            b"NAME          NEXT      FREE
ROWS
 AFTER LOW
 L CAP
COLUMNS
 MODIFY
 X COST 2
 AFTER
 Y COST 1.5  LOW .5
RHS
 MODIFY
 LOW 4
 B LOW 3  CAP 5
RANGES
 DELETE
 R
BOUNDS
 MODIFY
 UP BND X 1
ENDATA
",
        ],
        status: 0,
        listing: b"CONVERT ONE      ROWS 2 COLUMNS 1 ENTRIES 2
REVISE  NEXT     ROWS 3 COLUMNS 2 ENTRIES 4
SETUP   NEXT     MIN
PRIMAL OPTIMAL STEPS 2 OBJECTIVE 11 CHECKED
SOLUTION OPTIMAL
SECTION 1 - ROWS
NUMBER ROW AT ACTIVITY SLACK LOWER UPPER DUAL
    1 COST     BS 11 -11 NONE NONE 0
    2 LOW      LL 4 0 4 NONE 3
    3 CAP      BS 0 0 NONE 0 0
SECTION 2 - COLUMNS
NUMBER COLUMN AT ACTIVITY COST LOWER UPPER REDUCED
    4 X        UL 1 2 0 1 -1
    5 Y        BS 6 3/2 0 NONE 0
BCDOUT  NEXT     CARDS 17
END 0
",
        cards: &[
            b"NAME          NEXT
ROWS
 N  COST
 G  LOW
 L  CAP
COLUMNS
    X         COST      2
    X         LOW       1
    Y         COST      1.5
    Y         LOW       .5
RHS
              LOW       4
    B         LOW       3
    B         CAP       5
BOUNDS
 UP BND       X         1
ENDATA
",
        ],
    },
];
