// Listings of jobs that are refused, and of jobs that bear on what a listing can show.
use super::listings::{Case, Edit, Finding, Listing};
use super::store::{STORE_FROM_EXIT, STORE_SOLUTION, STORE_TO_PRIMAL, STORE_VERDICT};
use test_decks::programs::{SOLVE, SOLVE_MAX};
use test_decks::{listings, problems, runs};

/// These jobs with their listings.
pub const JOBS: [&Listing; 11] = [
    &Listing {
        name: "store without SOLUTION",
        job: &[STORE_TO_PRIMAL, STORE_FROM_EXIT, problems::STORE],
        text: &[STORE_VERDICT, b"END 0\n"],
        found: Finding::Open(4),
        cases: &[Case {
            name: "another end",
            edit: Edit::Text(b"END 0", b"END 1"),
            found: Finding::Open(4),
        }],
    },
    &Listing {
        name: "a cell is moved before SOLUTION",
        job: &[
            STORE_TO_PRIMAL,
            b"         MOVE(XRHS,'WEEK')\n         SOLUTION\n",
            STORE_FROM_EXIT,
            problems::STORE,
        ],
        text: &[STORE_VERDICT, b"STOP 10 VERB FAULT 4 CARD 10\n"],
        found: Finding::Open(4),
        cases: &[],
    },
    &Listing {
        name: "a second PRIMAL",
        job: &[
            STORE_TO_PRIMAL,
            b"         PRIMAL\n         SOLUTION\n",
            STORE_FROM_EXIT,
            problems::STORE,
        ],
        text: &[
            STORE_VERDICT,
            b"PRIMAL OPTIMAL STEPS 0 OBJECTIVE 0 CHECKED\n",
            STORE_SOLUTION,
            b"END 0\n",
        ],
        found: Finding::Open(4),
        cases: &[],
    },
    &Listing {
        name: "a title before SOLUTION",
        job: &[
            STORE_TO_PRIMAL,
            b"         TITLE('SHOWN')\n         SOLUTION\n",
            STORE_FROM_EXIT,
            problems::STORE,
        ],
        text: &[STORE_VERDICT, b"TITLE SHOWN\n", STORE_SOLUTION, b"END 0\n"],
        found: Finding::Attested(6),
        cases: &[Case {
            name: "no memory at the title",
            edit: Edit::From(b"TITLE SHOWN", b"STOP 28 MEMORY\n"),
            found: Finding::Open(5),
        }],
    },
    &Listing {
        name: "ranges",
        job: &[runs::RANGE_BND, problems::TWO],
        text: &[listings::TWO_SET_UP, listings::TWO_RANGED],
        found: Finding::Open(4),
        cases: &[],
    },
    &Listing {
        name: "a limit of steps",
        job: &[
            runs::SOLVE_BND1_IN_2_STEPS,
            problems::TESTPROB_CARDS,
            problems::ENDATA,
        ],
        text: &[listings::TESTPROB_CUT_SHORT],
        found: Finding::Open(3),
        cases: &[],
    },
    &Listing {
        name: "an empty job",
        job: &[],
        text: &[b"STOP 8 CONTROL FAULT 1 CARD 0\n"],
        found: Finding::Attested(0),
        cases: &[
            Case {
                name: "another card",
                edit: Edit::Text(b"CARD 0", b"CARD 1"),
                found: Finding::Wrong(1),
            },
            Case {
                name: "a line behind",
                edit: Edit::Text(b"CARD 0\n", b"CARD 0\nEND 0\n"),
                found: Finding::Wrong(2),
            },
        ],
    },
    &Listing {
        name: "a tab",
        job: &[b"\tPROGRAM\n"],
        text: &[b"STOP 13 CARD FAULT 4 CARD 1\n"],
        found: Finding::Attested(0),
        cases: &[],
    },
    &Listing {
        name: "a title like an end",
        job: &[b"         PROGRAM\n         TITLE('END 0')\n         EXIT\n         PEND\n"],
        text: &[b"TITLE END 0\nEND 0\n"],
        found: Finding::Attested(1),
        cases: &[],
    },
    &Listing {
        name: "a plan over combinations",
        job: &[SOLVE_MAX, problems::CHAIRS],
        text: &[listings::CHAIRS_SOLVED],
        found: Finding::Attested(4),
        cases: &[Case {
            name: "another activity of a combination",
            edit: Edit::Text(b"UL 100 0 NONE", b"UL 99 1 NONE"),
            found: Finding::Wrong(4),
        }],
    },
    &Listing {
        name: "a product of a combination is refused",
        job: &[SOLVE, problems::GREAT_PRODUCT],
        text: &[listings::GREAT_PRODUCT_REFUSED],
        found: Finding::Open(2),
        cases: &[Case {
            name: "a plan over numbers that can't be made",
            edit: Edit::From(
                b"STOP 20",
                b"SETUP   T        MIN\nPRIMAL OPTIMAL STEPS 0 OBJECTIVE 0 CHECKED\n",
            ),
            found: Finding::Unchecked(2),
        }],
    },
];
