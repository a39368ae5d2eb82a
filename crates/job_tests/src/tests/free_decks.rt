// Free decks: decks whose cards between others are changed, as CONVERT reads them and BCDOUT writes them out.
use super::frames::{Frame, Refusals, Stop};
use super::jobs::answer_of;
use super::sections::{COLUMNS, NAME_ONE, RHS, ROWS};
use std::alloc::Global;
use std::test::Fail;
use test_decks::problems::ENDATA;

/// Cards with a fault, and the fault's number with its place, as the listing tells them.
pub type Faulty = (&'static str, &'static str);

/// Cards without a fault, the lines of the listing that tell sizes, and the parts that are written of the cards.
pub type Lawful = (&'static str, &'static [u8], &'static [&'static [u8]]);

/// Cases of one place in a job: the jobs, the cards that have a fault, those that have none, and what stands around the lines of their
/// listing and around the cards that are written of them.
pub struct Place {
    pub cards: Refusals,
    pub faulty: &'static [Faulty],
    pub listing: Frame,
    pub deck: Frame,
    pub lawful: &'static [Lawful],
}

// Whether the job with these cards is converted, and written out as this deck.
fn is_lawful(alloc: Global, place: &Place, case: &Lawful) -> Result<bool, Fail> {
    let (cards, lines, deck) = *case;
    let job = place.cards.job.around(alloc, cards.as_bytes())?;
    let listing = place.listing.around(alloc, lines)?;
    let deck = place.deck.around(alloc, &deck.concat(alloc)?)?;
    Ok(answer_of(alloc, &job)?.is_punched(0, &listing, &deck))
}

/// The cards of the first case of this place that is answered otherwise.
pub fn first_unmet(alloc: Global, place: &Place) -> Result<Option<&'static str>, Fail> {
    for (cards, fault) in place.faulty {
        if !place.cards.has(alloc, cards, fault)? {
            return Ok(Some(*cards));
        }
    }
    for case in place.lawful {
        if !is_lawful(alloc, place, case)? {
            return Ok(Some(case.0));
        }
    }
    Ok(None)
}

// Reads a problem and writes it out.
const BCDOUT: &[u8] = b"* A free deck, with one card or two changed.
*
         PROGRAM
         CONVERT
         BCDOUT
         EXIT
         PEND
";

// The NAME card of the free deck, and its three sections.
const FREE_NAME: &[u8] = b"NAME          ONE       FREE\n";

const FREE_ROWS: &[u8] = b"ROWS\n N COST\n G LOW\n";

const FREE_COLUMNS: &[u8] = b"COLUMNS\n X COST 1 LOW 1\n";

const FREE_RHS: &[u8] = b"RHS\n LOW 1\n";

// The listing of a free deck without a fault.
const WRITTEN: Frame = Frame {
    before: &[],
    after: &[b"END 0\n"],
};

// The lines of a deck of so many cards, with the rows and the column of the free deck.
const OF_10_CARDS: &[u8] =
    b"CONVERT ONE      ROWS 2 COLUMNS 1 ENTRIES 2\nBCDOUT  ONE      CARDS 10\n";

const OF_12_CARDS: &[u8] =
    b"CONVERT ONE      ROWS 2 COLUMNS 1 ENTRIES 2\nBCDOUT  ONE      CARDS 12\n";

// A card of COLUMNS, card 13 of the job.
const ENTRIES: Place = Place {
    cards: Refusals {
        job: Frame {
            before: &[BCDOUT, FREE_NAME, FREE_ROWS, b"COLUMNS\n"],
            after: &[FREE_RHS, ENDATA],
        },
        listing: b"",
        stop: Stop::Deck,
    },
    faulty: &ENTRY_FAULTS,
    listing: WRITTEN,
    deck: Frame {
        before: &[NAME_ONE, ROWS],
        after: &[RHS, ENDATA],
    },
    lawful: &ENTRY_DECKS,
};

const ENTRY_FAULTS: [Faulty; 18] = [
    (" X COST\n", "25 CARD 13"),
    (" X COST 1 LOW\n", "25 CARD 13"),
    (" X COST 1 LOW 1 LOW\n", "25 CARD 13"),
    (" X\n", "25 CARD 13"),
    (" LONGNAME9 COST 1\n", "26 CARD 13"),
    (" X LONGNAME9 1\n", "26 CARD 13"),
    (" X COST 1 LONGNAME9 1\n", "26 CARD 13"),
    (" X COST 1234567890123\n", "27 CARD 13"),
    (" LONGNAME9 COST 1234567890123\n", "26 CARD 13"),
    (" X COST 1 LOW 1.2.3\n", "8 CARD 13 NUMBER 2 COLUMN 18"),
    (" X COST 1 LOW Q\n", "8 CARD 13 NUMBER 2 COLUMN 15"),
    ("   X   COST   E1\n", "8 CARD 13 NUMBER 3"),
    (" X COST 1E19\n", "8 CARD 13 NUMBER 4"),
    (" X COST 1 COST 1\n", "7 CARD 13"),
    (" X NOROW 1\n", "6 CARD 13"),
    (" M1 'MARKER' 'INTORG'\n", "14 CARD 13"),
    (" M1 'MARKER'\n", "25 CARD 13"),
    ("X COST 1\n", "2 CARD 13"),
];

const ENTRY_DECKS: [Lawful; 2] = [
    (
        " EIGHTLET COST 123456789012 LOW 1\n",
        OF_10_CARDS,
        &[b"COLUMNS\n    EIGHTLET  COST      123456789012\n    EIGHTLET  LOW       1\n"],
    ),
    (
        "                                                            X COST 1 LOW 1\n",
        OF_10_CARDS,
        &[COLUMNS],
    ),
];

// A third card of ROWS, card 12.
const THIRD_ROW: Place = Place {
    cards: Refusals {
        job: Frame {
            before: &[BCDOUT, FREE_NAME, FREE_ROWS],
            after: &[FREE_COLUMNS, FREE_RHS, ENDATA],
        },
        listing: b"",
        stop: Stop::Deck,
    },
    faulty: &ROW_FAULTS,
    listing: WRITTEN,
    deck: Frame {
        before: &[NAME_ONE, ROWS],
        after: &[COLUMNS, RHS, ENDATA],
    },
    lawful: &ROW_DECKS,
};

const ROW_FAULTS: [Faulty; 16] = [
    (" Q R X\n", "3 CARD 12"),
    (" Q R\n", "3 CARD 12"),
    (" L\n", "25 CARD 12"),
    (" L A B 1\n", "25 CARD 12"),
    (" G LOW\n", "4 CARD 12"),
    (" DN\n", "25 CARD 12"),
    (" DN S COST\n", "25 CARD 12"),
    (" DL S COST 1 LOW\n", "25 CARD 12"),
    (" L LONGNAME9\n", "26 CARD 12"),
    (" Q LONGNAME9\n", "3 CARD 12"),
    (" DL LONGNAME9 COST 1\n", "26 CARD 12"),
    (" DL S LONGNAME9 1\n", "26 CARD 12"),
    (" DL S COST 1234567890123\n", "27 CARD 12"),
    (" DL S S 1\n", "6 CARD 12"),
    (" DL COST COST 1\n", "4 CARD 12"),
    (" DL S COST 1 LOW 1.2.3\n", "8 CARD 12 NUMBER 2 COLUMN 21"),
];

const ROW_DECKS: [Lawful; 2] = [
    (
        " L A\n",
        b"CONVERT ONE      ROWS 3 COLUMNS 1 ENTRIES 2\nBCDOUT  ONE      CARDS 11\n",
        &[b" L  A\n"],
    ),
    (
        " DN S\n DL T COST 1\n DG U COST 1 LOW -2\n DG U T 3\n",
        b"CONVERT ONE      ROWS 5 COLUMNS 1 ENTRIES 2\nBCDOUT  ONE      CARDS 15\n",
        &[
            b" DN S
 DL T         COST      1
 DG U         COST      1
 DG U         LOW       -2
 DG U         T         3
",
        ],
    ),
];

// A section between RHS and ENDATA, whose first data card is card 17.
const SETS: Place = Place {
    cards: Refusals {
        job: Frame {
            before: &[BCDOUT, FREE_NAME, FREE_ROWS, FREE_COLUMNS, FREE_RHS],
            after: &[ENDATA],
        },
        listing: b"",
        stop: Stop::Deck,
    },
    faulty: &SET_FAULTS,
    listing: WRITTEN,
    deck: Frame {
        before: &[NAME_ONE, ROWS, COLUMNS, RHS],
        after: &[ENDATA],
    },
    lawful: &SET_DECKS,
};

const SET_FAULTS: [Faulty; 12] = [
    ("BOUNDS\n UP X\n", "25 CARD 17"),
    ("BOUNDS\n MI B X 1\n", "25 CARD 17"),
    ("BOUNDS\n FR B X 1\n", "25 CARD 17"),
    ("BOUNDS\n BV\n", "10 CARD 17"),
    ("BOUNDS\n BV B X 1\n", "10 CARD 17"),
    ("BOUNDS\n FX B X 12345678901E1\n", "27 CARD 17"),
    ("BOUNDS\n UP B Y 1\n", "11 CARD 17"),
    ("BOUNDS\n UP LONGNAME9 X 1\n", "26 CARD 17"),
    ("RANGES\n COST 1 LOW 1\n", "9 CARD 17"),
    ("RANGES\n R\n", "25 CARD 17"),
    ("RANGES\n LOW 1 LOW 1\n", "7 CARD 17"),
    ("RANGES\n R LOW 1 LOW 1 X\n", "25 CARD 17"),
];

const SET_DECKS: [Lawful; 6] = [
    (
        "BOUNDS\n FR X\n",
        OF_12_CARDS,
        &[b"BOUNDS\n FR           X\n"],
    ),
    (
        "BOUNDS\n FR B X\n",
        OF_12_CARDS,
        &[b"BOUNDS\n FR B         X\n"],
    ),
    (
        "BOUNDS\n UP X 1\n",
        OF_12_CARDS,
        &[b"BOUNDS\n UP           X         1\n"],
    ),
    (
        "BOUNDS\n UP B X 1\n",
        OF_12_CARDS,
        &[b"BOUNDS\n UP B         X         1\n"],
    ),
    (
        "RANGES\n LOW 1\n",
        OF_12_CARDS,
        &[b"RANGES\n              LOW       1\n"],
    ),
    (
        "RANGES\n R LOW 1\n",
        OF_12_CARDS,
        &[b"RANGES\n    R         LOW       1\n"],
    ),
];

// The NAME card, card 8: it begins a free deck, or a fixed one, of which card 10 has a fault.
const NAMES: Place = Place {
    cards: Refusals {
        job: Frame {
            before: &[BCDOUT],
            after: &[FREE_ROWS, FREE_COLUMNS, FREE_RHS, ENDATA],
        },
        listing: b"",
        stop: Stop::Deck,
    },
    faulty: &NAME_FAULTS,
    listing: WRITTEN,
    deck: Frame {
        before: &[],
        after: &[ROWS, COLUMNS, RHS, ENDATA],
    },
    lawful: &NAME_DECKS,
};

const NAME_FAULTS: [Faulty; 9] = [
    ("NAME          ONE      FREE\n", "20 CARD 10"),
    ("NAME          ONE      XFREE\n", "20 CARD 10"),
    ("NAME          ONE     X FREE\n", "20 CARD 10"),
    ("NAME          ONE       FREE X\n", "20 CARD 10"),
    (
        "NAME          ONE       FREE                                                   X\n",
        "20 CARD 10",
    ),
    ("NAME          ONE       FREED\n", "20 CARD 10"),
    ("NAME ONE FREE\n", "20 CARD 10"),
    ("NAME          ONE       free\n", "20 CARD 10"),
    ("NAME          A NAME  FREE\n", "20 CARD 10"),
];

const NAME_DECKS: [Lawful; 2] = [
    (
        "NAME          A NAME    FREE\n",
        b"CONVERT A NAME   ROWS 2 COLUMNS 1 ENTRIES 2\nBCDOUT  A NAME   CARDS 10\n",
        &[b"NAME          A NAME\n"],
    ),
    (
        "NAME                    FREE\n",
        b"CONVERT          ROWS 2 COLUMNS 1 ENTRIES 2\nBCDOUT           CARDS 10\n",
        &[b"NAME\n"],
    ),
];

#[test]
fn words_of_entries(rt: HostRuntime) -> Result<(), Fail> {
    assert_eq!(rt; first_unmet(rt.alloc(), &ENTRIES)?, None);
    Ok(())
}

#[test]
fn words_of_rows_and_sets(rt: HostRuntime) -> Result<(), Fail> {
    assert_eq!(rt; first_unmet(rt.alloc(), &THIRD_ROW)?, None);
    assert_eq!(rt; first_unmet(rt.alloc(), &SETS)?, None);
    Ok(())
}

#[test]
fn name_cards_of_free_decks(rt: HostRuntime) -> Result<(), Fail> {
    assert_eq!(rt; first_unmet(rt.alloc(), &NAMES)?, None);
    Ok(())
}
