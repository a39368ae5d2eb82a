// Decks with a fault in a set, or in the second pair of a card.
use super::decks::fault_after;
use super::faults::{A_COLUMN, DeckOfFault};
use deck_fields::NumberFault;
use mps_convert::DeckFaultKind;
use std::test::Fail;

pub const SETS: [DeckOfFault; 6] = [
    (
        b"RANGES\n    RNG       COST      4\nENDATA\n",
        7,
        DeckFaultKind::RangeOnFree,
    ),
    (
        b"BOUNDS\n BV BND       X         1\nENDATA\n",
        7,
        DeckFaultKind::BadBoundType,
    ),
    (
        b"BOUNDS\n UP BND       Y         1\nENDATA\n",
        7,
        DeckFaultKind::UnknownColumn,
    ),
    (
        b"BOUNDS\n MI BND       X\n FX BND       X         1\n",
        8,
        DeckFaultKind::BoundTwice,
    ),
    (
        b"RHS\n    A         COST      1\n    A         COST      2\n",
        8,
        DeckFaultKind::DuplicateEntry,
    ),
    (b"BOUNDS\nRHS\nENDATA\n", 7, DeckFaultKind::SectionOrder),
];

pub const SECOND_PAIRS: [DeckOfFault; 6] = [
    (
        b"    X         LIM       1              COST      1\nENDATA\n",
        7,
        DeckFaultKind::DuplicateEntry,
    ),
    (
        b"    Y         LIM       1              COST      1-\nENDATA\n",
        7,
        DeckFaultKind::Number(NumberFault::BadCharacter(2), 51),
    ),
    (
        b"    Y         LIM       1                        1\nENDATA\n",
        7,
        DeckFaultKind::EmptyName,
    ),
    (
        b"    Y         LIM       1              'MARKER'\nENDATA\n",
        7,
        DeckFaultKind::Marker,
    ),
    (
        b"RANGES\n    R         LIM       1              COST      1\nENDATA\n",
        8,
        DeckFaultKind::RangeOnFree,
    ),
    (
        b"RHS\n                                       COST      1\nENDATA\n",
        8,
        DeckFaultKind::EmptyName,
    ),
];

// Of two faults of a card that is tested first.
pub const FIRST_TESTS: [DeckOfFault; 6] = [
    (
        b"    X         COST      1..2\nENDATA\n",
        7,
        DeckFaultKind::DuplicateEntry,
    ),
    (
        b"RHS\n    R         COST      1\n    R         COST\nENDATA\n",
        9,
        DeckFaultKind::DuplicateEntry,
    ),
    (
        b" N  Y         GAIN      1..2\nENDATA\n",
        7,
        DeckFaultKind::ExtraField,
    ),
    (
        b"RANGES\n    R         COST      1..2\nENDATA\n",
        8,
        DeckFaultKind::RangeOnFree,
    ),
    (
        b"BOUNDS\n UP B         X         1\n FX B         X         1..2\nENDATA\n",
        9,
        DeckFaultKind::BoundTwice,
    ),
    (
        b"BOUNDS\n UP B         X         1..2           Y\nENDATA\n",
        8,
        DeckFaultKind::Number(NumberFault::BadCharacter(3), 27),
    ),
];

pub const BOUNDS: [DeckOfFault; 5] = [
    (b"BOUNDS\n UP B\nENDATA\n", 8, DeckFaultKind::EmptyName),
    (
        b"BOUNDS\n LO           X\nENDATA\n",
        8,
        DeckFaultKind::Number(NumberFault::Empty, 0),
    ),
    (
        b"BOUNDS\n MI B         X                                  1\nENDATA\n",
        8,
        DeckFaultKind::ExtraField,
    ),
    (
        b"BOUNDS\n U  B         X         1\nENDATA\n",
        8,
        DeckFaultKind::BadBoundType,
    ),
    (
        b"BOUNDS\n UPXB         X         1\nENDATA\n",
        8,
        DeckFaultKind::ExtraField,
    ),
];

#[test]
fn sets_may_be_mixed_and_free_bounds_have_no_number(rt: HostRuntime) -> Result<(), Fail> {
    let cards = b"RHS
    A         COST      1
    B         COST      2
    A         LIM       3
BOUNDS
 FR B         X         1..2
 MI           X
 UP           X         1
ENDATA
";
    assert_eq!(rt; fault_after(rt.alloc(), A_COLUMN, cards)?, None);
    Ok(())
}
