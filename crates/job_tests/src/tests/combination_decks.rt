// Combination rows: cards that are refused for one, and revisions that state them.
use super::frames::{CONVERTED, DeckCase, Fault, Frame, Jobs, Refusals, Stop};
use super::rows::{DeckRow, Row};
use super::runs::{first_unpunched, first_unreported};
use std::test::Fail;
use test_decks::problems::{ENDATA, SUM_COLUMNS, SUM_OF_B1_FROM_Y, SUM_OF_B1_TO_X, SUM_ROWS};
use test_decks::programs::{CONVERT, REVISE, SOLVE};

// Cards of ROWS after the objective that are refused for a combination.
const ROW_CARDS: Refusals = Refusals {
    job: Frame {
        before: &[CONVERT, b"NAME          T\nROWS\n N  COST\n"],
        after: &[b"COLUMNS\n    X         COST      1\n", ENDATA],
    },
    listing: b"",
    stop: Stop::Deck,
};

const ROW_FAULTS: [Fault; 7] = [
    (
        "a part on the combination itself",
        " DL S         S         1\n",
        "6 CARD 8",
    ),
    (
        "a part on a later row",
        " DL S         A         1\n L  A\n",
        "6 CARD 8",
    ),
    (
        "a part twice",
        " L  A\n DL S         A         1              COST      1\n DL S         A         2\n",
        "7 CARD 10",
    ),
    (
        "another type for a combination",
        " L  A\n DL S         A         1\n DG S         COST      2\n",
        "4 CARD 10",
    ),
    (
        "a plain row with a part",
        " L  A         COST      1\n",
        "20 CARD 8",
    ),
    (
        "a part without a number",
        " DL S         COST\n",
        "8 CARD 8 NUMBER 1",
    ),
    (
        "a combination after another row",
        " DL S         COST      1\n L  A\n DL S         A         1\n",
        "4 CARD 10",
    ),
];

// Cards of a revision of the sum that are refused.
const REVISION_CARDS: Refusals = Refusals {
    job: Frame {
        before: &[REVISE, SUM_ROWS, SUM_COLUMNS, b"NAME          NEXT\n"],
        after: &[ENDATA],
    },
    listing: SUM_CONVERTED,
    stop: Stop::Deck,
};

const REVISION_FAULTS: [Fault; 6] = [
    (
        "a part on a row that comes later",
        "ROWS\n BEFORE       B\n DL U         B         1\n",
        "6 CARD 22",
    ),
    (
        "a plain type for a combination",
        "ROWS\n MODIFY\n L  S\n",
        "3 CARD 22",
    ),
    (
        "a combination's type for a plain row",
        "ROWS\n MODIFY\n DL A         COST      1\n",
        "3 CARD 22",
    ),
    (
        "a row without a name modified",
        "ROWS\n MODIFY\n Q\n",
        "15 CARD 22",
    ),
    (
        "an unknown row of an unknown type",
        "ROWS\n MODIFY\n Q  NOROW\n",
        "24 CARD 22",
    ),
    (
        "an entry put on a combination",
        "COLUMNS\n MODIFY\n    X         S         1\n",
        "28 CARD 22",
    ),
];

// Other decks that are refused for a combination.
const OTHER_FAULTS: [Row; 3] = [
    Row {
        name: "an entry on a combination",
        job: &[
            SOLVE,
            SUM_ROWS,
            SUM_OF_B1_TO_X,
            b"    X         S         1\n",
            SUM_OF_B1_FROM_Y,
        ],
        status: 12,
        listing: b"STOP 12 DECK FAULT 28 CARD 17\n",
    },
    Row {
        name: "a range on a free combination",
        job: &[
            CONVERT,
            b"NAME          T
ROWS
 N  COST
 DN S         COST      1
COLUMNS
    X         COST      1
RANGES
    R         S         1
ENDATA
",
        ],
        status: 12,
        listing: b"STOP 12 DECK FAULT 9 CARD 12\n",
    },
    Row {
        name: "a part without a row",
        job: &[
            CONVERT,
            b"NAME          T
ROWS
 N  COST
 DL S                   2
COLUMNS
ENDATA
",
        ],
        status: 12,
        listing: b"STOP 12 DECK FAULT 15 CARD 8\n",
    },
];

// Programs over the sum of two rows.
const OVER_SUM: Jobs = Jobs {
    program: CONVERTED,
    problem: &[SUM_ROWS, SUM_COLUMNS],
    listing: SUM_CONVERTED,
};

const SUM_CONVERTED: &[u8] = b"CONVERT T        ROWS 4 COLUMNS 2 ENTRIES 4\n";

// The columns of the sum and its right-hand side, as BCDOUT writes them.
const SUM_WRITTEN: &[u8] = b"COLUMNS
    X         COST      -1
    X         A         1
    Y         COST      -1
    Y         B         1
RHS
    B         A         3
    B         B         3
    B         S         4
ENDATA
";

// Revises a problem, solves it, and writes it out.
const REVISED_AND_SOLVED: &[u8] = b"         REVISE
         SETUP
         PRIMAL
         SOLUTION
         BCDOUT
";

// Revisions of the sum, and the decks that are written of them.
const SUM_REVISIONS: [DeckCase; 4] = [
    DeckCase {
        name: "a part replaced and another type",
        jobs: &OVER_SUM,
        statements: REVISED_AND_SOLVED,
        decks: b"NAME          NEXT
ROWS
 MODIFY
 DG S         A         2
ENDATA
",
        status: 0,
        lines: b"REVISE  NEXT     ROWS 4 COLUMNS 2 ENTRIES 4
SETUP   NEXT     MIN
PRIMAL OPTIMAL STEPS 3 OBJECTIVE -6 CHECKED
SOLUTION OPTIMAL
SECTION 1 - ROWS
NUMBER ROW AT ACTIVITY SLACK LOWER UPPER DUAL
    1 COST     BS -6 6 NONE NONE 0
    2 A        UL 3 0 NONE 3 -1
    3 B        UL 3 0 NONE 3 -1
    4 S        BS 9 -5 4 NONE 0
SECTION 2 - COLUMNS
NUMBER COLUMN AT ACTIVITY COST LOWER UPPER REDUCED
    5 X        BS 3 -1 0 NONE 0
    6 Y        BS 3 -1 0 NONE 0
BCDOUT  NEXT     CARDS 17
END 0
",
        cards: &[
            b"NAME          NEXT
ROWS
 N  COST
 L  A
 L  B
 DG S         A         2
 DG S         B         1
",
            SUM_WRITTEN,
        ],
    },
    DeckCase {
        name: "a part's row deleted",
        jobs: &OVER_SUM,
        statements: b"         REVISE\n         SETUP\n         PRIMAL\n         BCDOUT\n",
        decks: b"NAME          NEXT
ROWS
 DELETE
    A
ENDATA
",
        status: 2,
        lines: b"REVISE  NEXT     ROWS 3 COLUMNS 2 ENTRIES 3
SETUP   NEXT     MIN
PRIMAL UNBOUNDED STEPS 0 OBJECTIVE 0 CHECKED
    1 COST     0 -1
    2 B        0 0
    3 S        0 0
    4 X        0 1
    5 Y        0 0
END 2
",
        cards: &[],
    },
    DeckCase {
        name: "a combination inserted on two cards",
        jobs: &OVER_SUM,
        statements: REVISED_AND_SOLVED,
        decks: b"NAME          NEXT
ROWS
 BEFORE       B
 DL U         A         1
 DL U         COST      0
ENDATA
",
        status: 0,
        lines: b"REVISE  NEXT     ROWS 5 COLUMNS 2 ENTRIES 4
SETUP   NEXT     MIN
PRIMAL OPTIMAL STEPS 2 OBJECTIVE -3 CHECKED
SOLUTION OPTIMAL
SECTION 1 - ROWS
NUMBER ROW AT ACTIVITY SLACK LOWER UPPER DUAL
    1 COST     BS -3 3 NONE NONE 0
    2 A        BS 0 3 NONE 3 0
    3 U        UL 0 0 NONE 0 -1
    4 B        UL 3 0 NONE 3 -1
    5 S        BS 3 1 NONE 4 0
SECTION 2 - COLUMNS
NUMBER COLUMN AT ACTIVITY COST LOWER UPPER REDUCED
    6 X        BS 0 -1 0 NONE 0
    7 Y        BS 3 -1 0 NONE 0
BCDOUT  NEXT     CARDS 19
END 0
",
        cards: &[
            b"NAME          NEXT
ROWS
 N  COST
 L  A
 DL U         A         1
 DL U         COST      0
 L  B
 DL S         A         1
 DL S         B         1
",
            SUM_WRITTEN,
        ],
    },
    DeckCase {
        name: "no parts left",
        jobs: &OVER_SUM,
        statements: REVISED_AND_SOLVED,
        decks: b"NAME          NEXT
ROWS
 DELETE
    A
    B
COLUMNS
 MODIFY
    X         COST      1
    Y         COST      1
ENDATA
",
        status: 0,
        lines: b"REVISE  NEXT     ROWS 2 COLUMNS 2 ENTRIES 2
SETUP   NEXT     MIN
PRIMAL OPTIMAL STEPS 0 OBJECTIVE 0 CHECKED
SOLUTION OPTIMAL
SECTION 1 - ROWS
NUMBER ROW AT ACTIVITY SLACK LOWER UPPER DUAL
    1 COST     BS 0 0 NONE NONE 0
    2 S        BS 0 4 NONE 4 0
SECTION 2 - COLUMNS
NUMBER COLUMN AT ACTIVITY COST LOWER UPPER REDUCED
    3 X        LL 0 1 0 NONE 1
    4 Y        LL 0 1 0 NONE 1
BCDOUT  NEXT     CARDS 10
END 0
",
        cards: &[
            b"NAME          NEXT
ROWS
 N  COST
 DL S
COLUMNS
    X         COST      1
    Y         COST      1
RHS
    B         S         4
ENDATA
",
        ],
    },
];

// The rows, right-hand sides and ranges of a problem with other combinations, as BCDOUT writes them.
const ROWS_WRITTEN: &[u8] = b"ROWS
 DL S
 N  COST
 L  A
 DG U         A         .50
 DG U         COST      -2
 DN V         U         1
 DN V         A         0
";

const SIDES_WRITTEN: &[u8] = b"RHS
    B         U         1
RANGES
    R         U         2
ENDATA
";

// A revision of other combinations.
const OTHER_REVISIONS: [DeckRow; 1] = [DeckRow {
    name: "written and converted again",
    job: &[
        b"         PROGRAM
         CONVERT
         BCDOUT
         REVISE
         BCDOUT
         EXIT
         PEND
NAME          T
ROWS
 DL S
 N  COST
 L  A
 DG U         A         .50            COST      -2
 DN V         U         1              A         0
COLUMNS
    X         A         1
    Y         A         1
RHS
    B         U         1
RANGES
    R         U         2
ENDATA
NAME          NEXT
ROWS
 AFTER
 DE W         V         1              U         1E1
COLUMNS
 DELETE
    X         A
ENDATA
",
    ],
    status: 0,
    listing: b"CONVERT T        ROWS 5 COLUMNS 2 ENTRIES 2
BCDOUT  T        CARDS 17
REVISE  NEXT     ROWS 6 COLUMNS 2 ENTRIES 1
BCDOUT  NEXT     CARDS 19
END 0
",
    cards: &[
        b"NAME          T\n",
        ROWS_WRITTEN,
        b"COLUMNS\n    X         A         1\n    Y         A         1\n",
        SIDES_WRITTEN,
        b"NAME          NEXT\n",
        ROWS_WRITTEN,
        b" DE W         V         1
 DE W         U         1E1
COLUMNS
    X         COST      0
    Y         A         1
",
        SIDES_WRITTEN,
    ],
}];

#[test]
fn cards_are_refused_for_combinations(rt: HostRuntime) -> Result<(), Fail> {
    let alloc = rt.alloc();
    assert_eq!(rt; ROW_CARDS.first_unmet(alloc, &ROW_FAULTS)?, None);
    assert_eq!(rt; REVISION_CARDS.first_unmet(alloc, &REVISION_FAULTS)?, None);
    assert_eq!(rt; first_unreported(alloc, &OTHER_FAULTS)?, None);
    Ok(())
}

#[test]
fn revisions_state_combinations(rt: HostRuntime) -> Result<(), Fail> {
    for case in &SUM_REVISIONS {
        assert!(rt; case.is_punched(rt.alloc())?, "{}", case.name);
    }
    assert_eq!(rt; first_unpunched(rt.alloc(), &OTHER_REVISIONS)?, None);
    Ok(())
}
