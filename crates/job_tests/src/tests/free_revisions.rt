// Free revisions: revisions whose cards between others are changed, as REVISE reads them and BCDOUT writes the problem out.
use super::frames::{Frame, Refusals, Stop};
use super::free_decks::{Faulty, Lawful, Place, first_unmet};
use super::sections::{BOUNDS, COLUMNS, NAME_NEXT, RANGES, RHS, ROWS};
use std::test::Fail;
use test_decks::problems::{ENDATA, RANGED_ONE};

// The line of the problem that is revised.
const CONVERTED: &[u8] = b"CONVERT ONE      ROWS 2 COLUMNS 1 ENTRIES 2\n";

// A free revision of a fixed deck: its cards from card 23 on.
const REVISION: Place = Place {
    cards: Refusals {
        job: Frame {
            before: &[
                b"* A free revision.
*
         PROGRAM
         CONVERT
         REVISE
         BCDOUT
         EXIT
         PEND
",
                RANGED_ONE,
                b"NAME          NEXT      FREE\n",
            ],
            after: &[ENDATA],
        },
        listing: CONVERTED,
        stop: Stop::Deck,
    },
    faulty: &REVISION_FAULTS,
    listing: Frame {
        before: &[CONVERTED],
        after: &[b"END 0\n"],
    },
    deck: Frame {
        before: &[NAME_NEXT],
        after: &[ENDATA],
    },
    lawful: &REVISION_DECKS,
};

const REVISION_FAULTS: [Faulty; 30] = [
    ("ROWS\n MODIFY\n N LOW\n", "9 CARD 25"),
    ("ROWS\n MODIFY\n L NOROW\n", "24 CARD 25"),
    ("ROWS\n MODIFY\n Q NOROW\n", "3 CARD 25"),
    ("ROWS\n MODIFY\n DL LOW\n", "3 CARD 25"),
    ("ROWS\n MODIFY\n LOW\n", "3 CARD 25"),
    ("ROWS\n DELETE\n NOROW\n", "23 CARD 25"),
    ("ROWS\n DELETE\n G LOW\n", "25 CARD 25"),
    ("ROWS\n DELETE\n DN\n", "23 CARD 25"),
    ("ROWS\n DELETE\n LONGNAME9\n", "26 CARD 25"),
    ("ROWS\n AFTER LOW\n G LOW\n", "4 CARD 25"),
    ("ROWS\n AFTER LONGNAME9\n L CAP\n", "22 CARD 24"),
    ("ROWS\n AFTER NOROW\n L CAP\n", "22 CARD 24"),
    ("ROWS\n BEFORE LOW CAP\n L CAP\n", "21 CARD 24"),
    ("ROWS\n Q R X Y\n", "21 CARD 24"),
    ("ROWS\n BEFOR LOW\n", "21 CARD 24"),
    ("COLUMNS\n MODIFY\n Y COST 2\n", "24 CARD 25"),
    ("COLUMNS\n DELETE\n X LOW 1\n", "25 CARD 25"),
    ("COLUMNS\n DELETE\n Y\n", "23 CARD 25"),
    ("COLUMNS\n BEFORE X\n X COST 1\n", "5 CARD 25"),
    ("RHS\n DELETE\n LOW\n", "23 CARD 25"),
    ("RHS\n BEFORE\n LOW 3\n", "21 CARD 24"),
    ("RANGES\n MODIFY\n COST 3\n", "9 CARD 25"),
    ("RANGES\n DELETE\n R COST\n", "23 CARD 25"),
    ("RANGES\n DELETE\n R NOROW\n", "6 CARD 25"),
    ("BOUNDS\n MODIFY\n BV BND X\n", "10 CARD 25"),
    ("BOUNDS\n DELETE\n X\n", "23 CARD 25"),
    ("BOUNDS\n DELETE\n BND Y\n", "11 CARD 25"),
    ("BOUNDS\n DELETE\n UP BND X\n", "25 CARD 25"),
    (" MODIFY\n L LOW\n", "1 CARD 23"),
    (" X COST 1\n", "1 CARD 23"),
];

// The lines of a revision to a problem of so many cards, with as many rows as before or with one more.
const OF_12_CARDS: &[u8] =
    b"REVISE  NEXT     ROWS 2 COLUMNS 1 ENTRIES 2\nBCDOUT  NEXT     CARDS 12\n";

const OF_14_CARDS: &[u8] =
    b"REVISE  NEXT     ROWS 2 COLUMNS 1 ENTRIES 2\nBCDOUT  NEXT     CARDS 14\n";

const OF_15_CARDS: &[u8] =
    b"REVISE  NEXT     ROWS 2 COLUMNS 1 ENTRIES 2\nBCDOUT  NEXT     CARDS 15\n";

const WITH_A_ROW_MORE: &[u8] =
    b"REVISE  NEXT     ROWS 3 COLUMNS 1 ENTRIES 2\nBCDOUT  NEXT     CARDS 15\n";

const REVISION_DECKS: [Lawful; 20] = [
    (
        "ROWS\n MODIFY\n L LOW\n",
        OF_14_CARDS,
        &[b"ROWS\n N  COST\n L  LOW\n", COLUMNS, RHS, RANGES, BOUNDS],
    ),
    (
        "ROWS\n MODIFY LONGNAME9\n L LOW\n",
        OF_14_CARDS,
        &[b"ROWS\n N  COST\n L  LOW\n", COLUMNS, RHS, RANGES, BOUNDS],
    ),
    (
        "ROWS\n DELETE\n LOW\n",
        b"REVISE  NEXT     ROWS 1 COLUMNS 1 ENTRIES 1\nBCDOUT  NEXT     CARDS 8\n",
        &[
            b"ROWS\n N  COST\nCOLUMNS\n    X         COST      1\n",
            BOUNDS,
        ],
    ),
    (
        "ROWS\n BEFORE LOW\n L CAP\n",
        WITH_A_ROW_MORE,
        &[
            b"ROWS\n N  COST\n L  CAP\n G  LOW\n",
            COLUMNS,
            RHS,
            RANGES,
            BOUNDS,
        ],
    ),
    (
        "ROWS\n   AFTER\n L CAP\n",
        WITH_A_ROW_MORE,
        &[ROWS, b" L  CAP\n", COLUMNS, RHS, RANGES, BOUNDS],
    ),
    (
        "COLUMNS\n MODIFY\n X COST 2\n",
        OF_14_CARDS,
        &[
            ROWS,
            b"COLUMNS\n    X         COST      2\n    X         LOW       1\n",
            RHS,
            RANGES,
            BOUNDS,
        ],
    ),
    (
        "COLUMNS\n DELETE\n X\n",
        b"REVISE  NEXT     ROWS 2 COLUMNS 0 ENTRIES 0\nBCDOUT  NEXT     CARDS 10\n",
        &[ROWS, b"COLUMNS\n", RHS, RANGES],
    ),
    (
        "COLUMNS\n DELETE\n X LOW\n",
        b"REVISE  NEXT     ROWS 2 COLUMNS 1 ENTRIES 1\nBCDOUT  NEXT     CARDS 13\n",
        &[
            ROWS,
            b"COLUMNS\n    X         COST      1\n",
            RHS,
            RANGES,
            BOUNDS,
        ],
    ),
    (
        "COLUMNS\n AFTER\n Y COST 1\n Y LOW 2\n",
        b"REVISE  NEXT     ROWS 2 COLUMNS 2 ENTRIES 4\nBCDOUT  NEXT     CARDS 16\n",
        &[
            ROWS,
            COLUMNS,
            b"    Y         COST      1\n    Y         LOW       2\n",
            RHS,
            RANGES,
            BOUNDS,
        ],
    ),
    (
        "RHS\n MODIFY\n LOW 3\n",
        OF_14_CARDS,
        &[
            ROWS,
            COLUMNS,
            b"RHS\n              LOW       3\n",
            RANGES,
            BOUNDS,
        ],
    ),
    (
        "RHS\n MODIFY\n B LOW 3 COST 1\n",
        b"REVISE  NEXT     ROWS 2 COLUMNS 1 ENTRIES 2\nBCDOUT  NEXT     CARDS 16\n",
        &[
            ROWS,
            COLUMNS,
            RHS,
            b"    B         LOW       3\n    B         COST      1\n",
            RANGES,
            BOUNDS,
        ],
    ),
    (
        "RANGES\n MODIFY\n R LOW 3\n",
        OF_14_CARDS,
        &[
            ROWS,
            COLUMNS,
            RHS,
            b"RANGES\n    R         LOW       3\n",
            BOUNDS,
        ],
    ),
    (
        "RANGES\n DELETE\n R\n",
        OF_12_CARDS,
        &[ROWS, COLUMNS, RHS, BOUNDS],
    ),
    (
        "RANGES\n DELETE\n R LOW\n",
        OF_12_CARDS,
        &[ROWS, COLUMNS, RHS, BOUNDS],
    ),
    (
        "BOUNDS\n MODIFY\n LO BND X 1\n",
        OF_15_CARDS,
        &[
            ROWS,
            COLUMNS,
            RHS,
            RANGES,
            BOUNDS,
            b" LO BND       X         1\n",
        ],
    ),
    (
        "BOUNDS\n MODIFY\n FR X\n",
        OF_15_CARDS,
        &[ROWS, COLUMNS, RHS, RANGES, BOUNDS, b" FR           X\n"],
    ),
    (
        "BOUNDS\n DELETE\n BND\n",
        OF_12_CARDS,
        &[ROWS, COLUMNS, RHS, RANGES],
    ),
    (
        "BOUNDS\n DELETE\n BND X\n",
        OF_12_CARDS,
        &[ROWS, COLUMNS, RHS, RANGES],
    ),
    (
        "RHS\n MODIFY 3\n",
        OF_14_CARDS,
        &[ROWS, COLUMNS, RHS, RANGES, BOUNDS],
    ),
    (
        "RHS\n MODIFY\n MODIFY 3\n",
        OF_14_CARDS,
        &[ROWS, COLUMNS, RHS, RANGES, BOUNDS],
    ),
];

#[test]
fn free_revisions(rt: HostRuntime) -> Result<(), Fail> {
    assert_eq!(rt; first_unmet(rt.alloc(), &REVISION)?, None);
    Ok(())
}
