// Worked jobs that stop at a fault of their control cards, of a statement or of a deck.
use super::frames::{CONVERTED, Case, Fault, Frame, Refusals, Stop, first_unanswered};
use super::over::{ONE_CONVERTED, OVER_ONE};
use super::rows::Row;
use super::runs::first_unreported;
use std::test::Fail;
use test_decks::problems::{ENDATA, ONE, TESTPROB_CARDS};
use test_decks::programs::{SOLVE, SOLVE_BND1};

// Cards of a control program.
const CONTROL_CARDS: Refusals = Refusals {
    job: Frame {
        before: &[b"         PROGRAM\n"],
        after: &[b"         PEND\n"],
    },
    listing: b"",
    stop: Stop::Control,
};

const CONTROL_FAULTS: [Fault; 7] = [
    ("control no label", "         GOTO(HERE)\n", "6 CARD 2"),
    ("control unknown verb", "         SOLVE\n", "3 CARD 2"),
    (
        "control unknown cell",
        "         MOVE(XFOO,'A')\n",
        "8 CARD 2",
    ),
    (
        "control bad argument",
        "         MOVE(XOBJ,5)\n",
        "7 CARD 2",
    ),
    ("control unclosed", "         TITLE('ABC\n", "10 CARD 2"),
    (
        "limit not whole",
        "         MOVE(XITERLIM,5.)\n         MOVE(XITERLIM,.5)\n",
        "7 CARD 3",
    ),
    ("limit some", "         MOVE(XITERLIM,'SOME')\n", "7 CARD 2"),
];

// Statements after CONVERT, of which the last is refused.
const STATEMENTS: Refusals = Refusals {
    job: Frame {
        before: &[CONVERTED],
        after: &[b"         PEND\n", ONE],
    },
    listing: ONE_CONVERTED,
    stop: Stop::Verb,
};

const VERB_FAULTS: [Fault; 5] = [
    ("no second deck", "         CONVERT\n", "1 CARD 3"),
    ("no setup", "         PRIMAL\n", "3 CARD 3"),
    (
        "objective not free",
        "         MOVE(XOBJ,'LOW')\n         SETUP\n",
        "11 CARD 4",
    ),
    (
        "no right hand side",
        "         MOVE(XRHS,'Z')\n         SETUP\n",
        "12 CARD 4",
    ),
    ("no bound set", "         SETUP('BOUND','Z')\n", "14 CARD 3"),
];

// Cards after the row of a deck.
const DECK_CARDS: Refusals = Refusals {
    job: Frame {
        before: &[SOLVE, b"NAME          T\nROWS\n N  COST\n"],
        after: &[ENDATA],
    },
    listing: b"",
    stop: Stop::Deck,
};

const DECK_FAULTS: [Fault; 8] = [
    ("deck bad row type", " Q  R1\n", "3 CARD 11"),
    (
        "deck number bad character",
        "COLUMNS\n    X         COST      1.2.3\n",
        "8 CARD 12 NUMBER 2 COLUMN 28",
    ),
    (
        "deck number exponent",
        "COLUMNS\n    X         COST      1E19\n",
        "8 CARD 12 NUMBER 4",
    ),
    (
        "deck duplicate entry",
        "COLUMNS\n    X         COST      1\n    X         COST      1\n",
        "7 CARD 13",
    ),
    (
        "deck column split",
        "COLUMNS
    X         COST      1
    Y         COST      1
    X         COST      2
",
        "5 CARD 14",
    ),
    (
        "deck marker",
        "COLUMNS\n    M1        'MARKER'\n",
        "14 CARD 12",
    ),
    (
        "deck bad bound type",
        "COLUMNS
    X         COST      1
BOUNDS
 BV BND       X         1
",
        "10 CARD 14",
    ),
    ("deck unknown section", "OBJSENSE\n", "2 CARD 11"),
];

// A card that isn't one, in the place of SETUP.
const CARDS: Refusals = Refusals {
    job: Frame {
        before: &[CONVERTED],
        after: &[
            b"         PRIMAL
         SOLUTION
         EXIT
         PEND
",
            ONE,
        ],
    },
    listing: b"",
    stop: Stop::Card,
};

const CARD_FAULTS: [Fault; 2] = [
    (
        "card of 81 bytes",
        "         SETUPXXXXXXXXXXXXXXXXXXXXXXXXXXXXXXXXXXXXXXXXXXXXXXXXXXXXXXXXXXXXXXXXXXX\n",
        "3 CARD 3",
    ),
    ("card with tab", "         SETUP\tX\n", "4 CARD 3"),
];

// A program that has no plan to show any more.
const NO_PLAN: [Case; 1] = [Case {
    name: "mark cleared by xobj",
    jobs: &OVER_ONE,
    statements: b"         SETUP
         PRIMAL
         MOVE(XOBJ,'COST')
         SOLUTION
",
    status: 10,
    lines: b"SETUP   ONE      MIN
PRIMAL OPTIMAL STEPS 1 OBJECTIVE 1 CHECKED
STOP 10 VERB FAULT 4 CARD 6
",
}];

// Jobs with other faults.
const OTHER_FAULTS: [Row; 5] = [
    Row {
        name: "empty job",
        job: &[],
        status: 8,
        listing: b"STOP 8 CONTROL FAULT 1 CARD 0\n",
    },
    Row {
        name: "no problem",
        job: &[b"         PROGRAM\n         SETUP\n         PEND\n", ONE],
        status: 10,
        listing: b"STOP 10 VERB FAULT 2 CARD 2\n",
    },
    Row {
        name: "program alone",
        job: &[SOLVE_BND1],
        status: 10,
        listing: b"STOP 10 VERB FAULT 1 CARD 2\n",
    },
    Row {
        name: "deck without endata",
        job: &[SOLVE_BND1, TESTPROB_CARDS],
        status: 12,
        listing: b"STOP 12 DECK FAULT 13 CARD 27\n",
    },
    Row {
        name: "without last two bytes",
        job: &[SOLVE_BND1, TESTPROB_CARDS, b"ENDAT"],
        status: 12,
        listing: b"STOP 12 DECK FAULT 2 CARD 28\n",
    },
];

#[test]
fn faults_are_reported_with_their_cards(rt: HostRuntime) -> Result<(), Fail> {
    let alloc = rt.alloc();
    let tables: [(&Refusals, &[Fault]); 4] = [
        (&CONTROL_CARDS, &CONTROL_FAULTS),
        (&STATEMENTS, &VERB_FAULTS),
        (&DECK_CARDS, &DECK_FAULTS),
        (&CARDS, &CARD_FAULTS),
    ];
    for (refusals, faults) in tables {
        assert_eq!(rt; refusals.first_unmet(alloc, faults)?, None);
    }
    assert_eq!(rt; first_unanswered(alloc, &NO_PLAN)?, None);
    assert_eq!(rt; first_unreported(alloc, &OTHER_FAULTS)?, None);
    Ok(())
}
