// Bases that go out as decks and come in again.
use super::frames::{DeckCase, Fault, Frame, Jobs, Refusals, SET_UP, SET_UP_BND, Stop};
use super::over::OVER_TESTPROB;
use std::test::Fail;
use test_decks::problems::{SINGULAR, SMALL, TESTPROB_BASIS, TWINS};
use test_decks::programs::INSERT_BND;

// Programs over the small problem.
const OVER_SMALL: Jobs = Jobs {
    program: SET_UP_BND,
    problem: &[SMALL],
    listing: SMALL_SET_UP,
};

// Programs over the twins, whose columns stand for no basis together.
const OVER_TWINS: Jobs = Jobs {
    program: SET_UP,
    problem: &[TWINS],
    listing: b"CONVERT T        ROWS 3 COLUMNS 2 ENTRIES 6\nSETUP   T        MIN\n",
};

// Programs over the singular problem.
const OVER_SINGULAR: Jobs = Jobs {
    program: SET_UP,
    problem: &[SINGULAR],
    listing: b"CONVERT SING     ROWS 4 COLUMNS 3 ENTRIES 10\nSETUP   SING     MIN\n",
};

const SMALL_SET_UP: &[u8] = b"CONVERT SMALL    ROWS 4 COLUMNS 3 ENTRIES 9\nSETUP   SMALL    MIN\n";

// Programs of PUNCH and INSERT, with their listings and the cards that they punch.
const BASES: [DeckCase; 14] = [
    DeckCase {
        name: "punch basis",
        jobs: &OVER_TESTPROB,
        statements: b"         PRIMAL\n         PUNCH\n",
        decks: b"",
        status: 0,
        lines: b"PRIMAL OPTIMAL STEPS 3 OBJECTIVE 54 CHECKED\nPUNCH   TESTPROB CARDS 4\nEND 0\n",
        cards: &[TESTPROB_BASIS],
    },
    DeckCase {
        name: "insert basis",
        jobs: &OVER_TESTPROB,
        statements: b"         INSERT\n         PRIMAL\n         PUNCH\n",
        decks: TESTPROB_BASIS,
        status: 0,
        lines: b"INSERT  TESTPROB BASIC 2
PRIMAL OPTIMAL STEPS 0 OBJECTIVE 54 CHECKED
PUNCH   TESTPROB CARDS 4
END 0
",
        cards: &[TESTPROB_BASIS],
    },
    DeckCase {
        name: "punch with upper limits",
        jobs: &OVER_SMALL,
        statements: b"         PRIMAL\n         PUNCH\n",
        decks: b"",
        status: 0,
        lines: b"PRIMAL OPTIMAL STEPS 2 OBJECTIVE -7 CHECKED\nPUNCH   SMALL    CARDS 4\nEND 0\n",
        cards: &[b"NAME          SMALL\n XL C         EQ\n UL A\nENDATA\n"],
    },
    DeckCase {
        name: "punch of the opening basis",
        jobs: &OVER_SMALL,
        statements: b"         PUNCH\n",
        decks: b"",
        status: 0,
        lines: b"PUNCH   SMALL    CARDS 2\nEND 0\n",
        cards: &[b"NAME          SMALL\nENDATA\n"],
    },
    DeckCase {
        name: "insert and punch",
        jobs: &OVER_SMALL,
        statements: b"         INSERT\n         PUNCH\n         PRIMAL\n",
        decks: b"NAME          START
 XU A         UPR
 XL C         EQ
 UL B
ENDATA
",
        status: 0,
        lines: b"INSERT  START    BASIC 2
PUNCH   SMALL    CARDS 4
PRIMAL OPTIMAL STEPS 1 OBJECTIVE -7 CHECKED
END 0
",
        cards: &[b"NAME          SMALL\n XU A         UPR\n XL C         EQ\nENDATA\n"],
    },
    DeckCase {
        name: "insert of limits",
        jobs: &OVER_SMALL,
        statements: b"         INSERT\n         PUNCH\n",
        decks: b"NAME          S\n LL A\n UL C\nENDATA\n",
        status: 0,
        lines: b"INSERT  S        BASIC 0\nPUNCH   SMALL    CARDS 3\nEND 0\n",
        cards: &[b"NAME          SMALL\n UL C\nENDATA\n"],
    },
    DeckCase {
        name: "insert of no card",
        jobs: &OVER_SMALL,
        statements: b"         INSERT\n         PRIMAL\n",
        decks: b"NAME          NOTHING   FREE\nENDATA\n",
        status: 0,
        lines: b"INSERT  NOTHING  BASIC 0\nPRIMAL OPTIMAL STEPS 2 OBJECTIVE -7 CHECKED\nEND 0\n",
        cards: &[],
    },
    DeckCase {
        name: "insert by the name of the deck",
        jobs: &OVER_SMALL,
        statements: b"         MOVE(XDATA,'SECOND')\n         INSERT\n         INSERT\n",
        decks: b"NAME          FIRST
ENDATA
NAME          SECOND
ENDATA
NAME          THIRD
ENDATA
",
        status: 10,
        lines: b"INSERT  SECOND   BASIC 0\nSTOP 10 VERB FAULT 1 CARD 6\n",
        cards: &[],
    },
    DeckCase {
        name: "insert clears the mark",
        jobs: &OVER_SMALL,
        statements: b"         PRIMAL\n         INSERT\n         SOLUTION\n",
        decks: b"NAME          S\nENDATA\n",
        status: 10,
        lines: b"PRIMAL OPTIMAL STEPS 2 OBJECTIVE -7 CHECKED
INSERT  S        BASIC 0
STOP 10 VERB FAULT 4 CARD 6
",
        cards: &[],
    },
    DeckCase {
        name: "no basis deck",
        jobs: &OVER_SMALL,
        statements: b"         INSERT\n",
        decks: b"",
        status: 10,
        lines: b"STOP 10 VERB FAULT 1 CARD 4\n",
        cards: &[],
    },
    DeckCase {
        name: "insert singular",
        jobs: &OVER_TWINS,
        statements: b"         INSERT\n",
        decks: b"NAME          S\n XL X         A\n XL Y         B\nENDATA\n",
        status: 10,
        lines: b"STOP 10 VERB FAULT 15 CARD 4
    1 COST     1
    4 X        -1
    5 Y        1
",
        cards: &[],
    },
    DeckCase {
        name: "insert bad code",
        jobs: &OVER_TWINS,
        statements: b"         INSERT\n",
        decks: b"NAME          S\n XX X         A\n XL Y         B\nENDATA\n",
        status: 12,
        lines: b"STOP 12 DECK FAULT 30 CARD 21\n",
        cards: &[],
    },
    DeckCase {
        name: "a basis of three columns",
        jobs: &OVER_SINGULAR,
        statements: b"         INSERT\n         PUNCH\n",
        decks: b"NAME          S
 XL Q         A
 XL P         B
 XL T         D
ENDATA
",
        status: 0,
        lines: b"INSERT  S        BASIC 3\nPUNCH   SING     CARDS 5\nEND 0\n",
        cards: &[
            b"NAME          SING
 XL P         A
 XL Q         B
 XL T         D
ENDATA
",
        ],
    },
    DeckCase {
        name: "a singular basis",
        jobs: &OVER_SINGULAR,
        statements: b"         INSERT\n",
        decks: b"NAME          S\n XL Q         A\n XL P         B\nENDATA\n",
        status: 10,
        lines: b"STOP 10 VERB FAULT 15 CARD 4
    1 COST     -1
    4 D        1
    5 P        -2
    6 Q        1
",
        cards: &[],
    },
];

// Decks of bases of the small problem that are refused.
const BASIS_CARDS: Refusals = Refusals {
    job: Frame {
        before: &[INSERT_BND, SMALL],
        after: &[],
    },
    listing: SMALL_SET_UP,
    stop: Stop::Deck,
};

const BASIS_FAULTS: [Fault; 3] = [
    (
        "a row named twice",
        "NAME          S\n XU A         UPR\n XU B         UPR\nENDATA\n",
        "31 CARD 35",
    ),
    (
        "a third name",
        "NAME          S\n LL B         UPR\nENDATA\n",
        "32 CARD 34",
    ),
    (
        "a basis deck without its end",
        "NAME          S\n UL A\n",
        "13 CARD 34",
    ),
];

#[test]
fn bases_go_out_and_come_in(rt: HostRuntime) -> Result<(), Fail> {
    for case in &BASES {
        assert!(rt; case.is_punched(rt.alloc())?, "{}", case.name);
    }
    assert_eq!(rt; BASIS_CARDS.first_unmet(rt.alloc(), &BASIS_FAULTS)?, None);
    Ok(())
}
