// The first fault of a deck: its card and its kind.
use super::combinations::{COMBINATIONS, FREE_COMBINATIONS, FREE_ROWS, PARTS, THREE_ROWS};
use super::decks::fault_after;
use super::set_faults::{BOUNDS, FIRST_TESTS, SECOND_PAIRS, SETS};
use deck_fields::NumberFault;
use mps_convert::DeckFaultKind;
use std::test::Fail;

// A deck, or what follows the cards before it, the card of its fault and the kind.
pub type DeckOfFault = (&'static [u8], u32, DeckFaultKind);

const SECTIONS: [DeckOfFault; 4] = [
    (b"ROWS\n", 1, DeckFaultKind::SectionOrder),
    (
        b"NAME          T\n N  COST\n",
        2,
        DeckFaultKind::SectionOrder,
    ),
    (
        b"NAME          T
ROWS
 N  COST
OBJSENSE
ENDATA
",
        4,
        DeckFaultKind::UnknownSection,
    ),
    (
        b"NAME          T
ROWS
 N  COST
 Q  R1
ENDATA
",
        4,
        DeckFaultKind::BadRowType,
    ),
];

const ROWS: [DeckOfFault; 5] = [
    (
        b"NAME          T
ROWS
 N  COST
 L  COST
 Q  R1
",
        4,
        DeckFaultKind::DuplicateRow,
    ),
    (
        b"* note\nNAME          T\nROWS\n N\n",
        4,
        DeckFaultKind::EmptyName,
    ),
    (
        b"NAME          T\nROWS\n NX COST\n",
        3,
        DeckFaultKind::BadRowType,
    ),
    (
        b"NAME          T\nROWS\n N XCOST\n",
        3,
        DeckFaultKind::ExtraField,
    ),
    (
        b"NAME          T
ROWS
 N  COST
COLUMNS

",
        5,
        DeckFaultKind::NoEndata,
    ),
];

const COLUMNS: [DeckOfFault; 5] = [
    (
        b"    X         COST      1
    Y         COST      1
    X         COST      2
ENDATA
",
        7,
        DeckFaultKind::ColumnSplit,
    ),
    (
        b"    X         COST      1\n    X         COST      1\nENDATA\n",
        6,
        DeckFaultKind::DuplicateEntry,
    ),
    (
        b"    M1        'MARKER'\nENDATA\n",
        5,
        DeckFaultKind::Marker,
    ),
    (
        b"    X         COST      1.2.3\nENDATA\n",
        5,
        DeckFaultKind::Number(NumberFault::BadCharacter(4), 28),
    ),
    (
        b"    X         COST      1E19\nENDATA\n",
        5,
        DeckFaultKind::Number(NumberFault::ExponentRange, 0),
    ),
];

const ENTRIES: [DeckOfFault; 6] = [
    (
        b"    X         COST      -.\nENDATA\n",
        5,
        DeckFaultKind::Number(NumberFault::NoDigit, 0),
    ),
    (
        b"    X         COST\nENDATA\n",
        5,
        DeckFaultKind::Number(NumberFault::Empty, 0),
    ),
    (
        b"    X         GAIN      1\nENDATA\n",
        5,
        DeckFaultKind::UnknownRow,
    ),
    (
        b"    X         COST      1              GAIN      1\nENDATA\n",
        5,
        DeckFaultKind::UnknownRow,
    ),
    (
        b"              COST      1\nENDATA\n",
        5,
        DeckFaultKind::EmptyName,
    ),
    // The first pair of a card is there.
    (
        b"    X                                  COST      1\nENDATA\n",
        5,
        DeckFaultKind::EmptyName,
    ),
];

const FREE_DECKS: [DeckOfFault; 5] = [
    (b" X COST\n", 6, DeckFaultKind::WordCount),
    (b" LONGNAME9 COST 1\n", 6, DeckFaultKind::LongName),
    (b" X COST 1234567890123\n", 6, DeckFaultKind::LongNumber),
    (
        b" X COST 1 LOW 1.2.3\n",
        6,
        DeckFaultKind::Number(NumberFault::BadCharacter(4), 18),
    ),
    (b" X COST 1\nBOUNDS\n UP X\n", 8, DeckFaultKind::WordCount),
];

// A card NAME whose last word isn't in its columns.
const FREE_NAMES: [DeckOfFault; 1] = [(
    b"NAME          ONE      FREE\nROWS\n N COST\n",
    3,
    DeckFaultKind::ExtraField,
)];

// Decks of one name, and the cards that stand before each of them.
#[derive(Clone, Copy)]
struct Group {
    name: &'static str,
    before: &'static [u8],
    decks: &'static [DeckOfFault],
}

// The row COST. The cards after these are the fifth and on.
const A_ROW: &[u8] = b"NAME          T\nROWS\n N  COST\nCOLUMNS\n";

// The same with the column X. The cards after these are the sixth and on.
const ONE_COLUMN: &[u8] = b"NAME          T
ROWS
 N  COST
COLUMNS
    X         COST      1
";

// The rows COST and LOW of a free deck. The cards after these are the sixth and on.
const FREE_COLUMNS: &[u8] = b"NAME          ONE       FREE
ROWS
 N COST
 G LOW
COLUMNS
";

// The rows COST and LIM and the column X on COST. The cards after these are the seventh and on.
pub const A_COLUMN: &[u8] = b"NAME          T
ROWS
 N  COST
 L  LIM
COLUMNS
    X         COST      1
";

const GROUPS: [Group; 13] = [
    Group {
        name: "sections",
        before: b"",
        decks: &SECTIONS,
    },
    Group {
        name: "rows",
        before: b"",
        decks: &ROWS,
    },
    Group {
        name: "columns",
        before: A_ROW,
        decks: &COLUMNS,
    },
    Group {
        name: "entries",
        before: A_ROW,
        decks: &ENTRIES,
    },
    Group {
        name: "free decks",
        before: FREE_COLUMNS,
        decks: &FREE_DECKS,
    },
    Group {
        name: "free decks by their first cards",
        before: b"",
        decks: &FREE_NAMES,
    },
    Group {
        name: "combinations",
        before: THREE_ROWS,
        decks: &COMBINATIONS,
    },
    Group {
        name: "parts",
        before: THREE_ROWS,
        decks: &PARTS,
    },
    Group {
        name: "combinations in free decks",
        before: FREE_ROWS,
        decks: &FREE_COMBINATIONS,
    },
    Group {
        name: "sets",
        before: ONE_COLUMN,
        decks: &SETS,
    },
    Group {
        name: "second pairs",
        before: A_COLUMN,
        decks: &SECOND_PAIRS,
    },
    Group {
        name: "the first test decides",
        before: A_COLUMN,
        decks: &FIRST_TESTS,
    },
    Group {
        name: "bounds",
        before: A_COLUMN,
        decks: &BOUNDS,
    },
];

#[test]
fn decks_have_faults(rt: HostRuntime) -> Result<(), Fail> {
    for group in &GROUPS {
        for (cards, card, kind) in group.decks {
            let found = fault_after(rt.alloc(), group.before, cards)?;
            assert_eq!(rt; found, Some((*card, *kind)), "{}", group.name);
        }
    }
    Ok(())
}
