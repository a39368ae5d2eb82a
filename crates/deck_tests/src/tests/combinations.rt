// Decks with combination rows.
use super::decks::fault_of;
use super::faults::DeckOfFault;
use super::problems::problem_of;
use deck_fields::NumberFault;
use frac128::Frac;
use mps_convert::DeckFaultKind;
use problem_file::{RowDecl, RowKind};
use std::test::Fail;

// The rows COST, A and B. The cards after these are the sixth and on.
pub const THREE_ROWS: &[u8] = b"NAME          T
ROWS
 N  COST
 L  A
 L  B
";

pub const COMBINATIONS: [DeckOfFault; 10] = [
    (b" DX S\n", 6, DeckFaultKind::BadRowType),
    (b" DN\n", 6, DeckFaultKind::EmptyName),
    (
        b" DL A         COST      1\n",
        6,
        DeckFaultKind::DuplicateRow,
    ),
    // A card of another type, or after another row's, doesn't go on.
    (
        b" DL S         A         1\n DG S         B         1\n",
        7,
        DeckFaultKind::DuplicateRow,
    ),
    (
        b" DL S         A         1\n L  C\n DL S         B         1\n",
        8,
        DeckFaultKind::DuplicateRow,
    ),
    (
        b" DL S         A         1\n L  S\n",
        7,
        DeckFaultKind::DuplicateRow,
    ),
    (b" L  C         A         1\n", 6, DeckFaultKind::ExtraField),
    (
        b" DL S         A         1\nCOLUMNS\n    X         A         1              S         1\n",
        8,
        DeckFaultKind::EntryOnCombination,
    ),
    // Of two faults the entry on a combination is reported.
    (
        b" DL S\nCOLUMNS\n    X         S         1..2\n",
        8,
        DeckFaultKind::EntryOnCombination,
    ),
    (
        b" DN S         A         1
COLUMNS
    X         A         1
RANGES
    R         S         1
",
        10,
        DeckFaultKind::RangeOnFree,
    ),
];

pub const PARTS: [DeckOfFault; 9] = [
    (b" DL S         S         1\n", 6, DeckFaultKind::UnknownRow),
    (
        b" DL S         C         1\n L  C\n",
        6,
        DeckFaultKind::UnknownRow,
    ),
    (
        b" DL S         A         1\n DL S         S         1\n",
        7,
        DeckFaultKind::UnknownRow,
    ),
    (
        b" DL S         A         1              A         2\n",
        6,
        DeckFaultKind::DuplicateEntry,
    ),
    (
        b" DL S         A         1              B         1\n DL S         A         2\n",
        7,
        DeckFaultKind::DuplicateEntry,
    ),
    (b" DL S                   1\n", 6, DeckFaultKind::EmptyName),
    (
        b" DL S         A\n",
        6,
        DeckFaultKind::Number(NumberFault::Empty, 0),
    ),
    (
        b" DL S         A         1..2\n",
        6,
        DeckFaultKind::Number(NumberFault::BadCharacter(3), 27),
    ),
    // The second part of a card may be the only one.
    (
        b" DL S                                  B         1..2\n",
        6,
        DeckFaultKind::Number(NumberFault::BadCharacter(3), 52),
    ),
];

// The rows COST and LOW of a free deck. The cards after these are the fifth and on.
pub const FREE_ROWS: &[u8] = b"NAME          ONE       FREE\nROWS\n N COST\n G LOW\n";

pub const FREE_COMBINATIONS: [DeckOfFault; 10] = [
    (b" DN\n", 5, DeckFaultKind::WordCount),
    (b" DN S COST\n", 5, DeckFaultKind::WordCount),
    (b" DL S COST 1 LOW\n", 5, DeckFaultKind::WordCount),
    (b" L S COST 1\n", 5, DeckFaultKind::WordCount),
    (b" Q R X\n", 5, DeckFaultKind::BadRowType),
    (b" DL LONGNAME9 COST 1\n", 5, DeckFaultKind::LongName),
    (b" DL S COST 1234567890123\n", 5, DeckFaultKind::LongNumber),
    (
        b" DL S COST 1 LOW 1.2.3\n",
        5,
        DeckFaultKind::Number(NumberFault::BadCharacter(4), 21),
    ),
    (b" DL S S 1\n", 5, DeckFaultKind::UnknownRow),
    (b" DL COST COST 1\n", 5, DeckFaultKind::DuplicateRow),
];

// The row and the multiplier of a part of a combination, by its place.
fn part_of(row: &RowDecl, place: usize) -> Result<(u32, Frac), Fail> {
    let Some(parts) = &row.parts else {
        return Err(Fail::from("a plain row"));
    };
    let part = parts.get(place).ok_or("a part")?;
    Ok((part.row, part.value.value()))
}

#[test]
fn parts_stand_on_earlier_rows_by_number(rt: HostRuntime) -> Result<(), Fail> {
    let deck = b"NAME          T
ROWS
 N  COST
 L  A
 L  B
 DG S         B         -2             A         1
* note
 DG S         COST      .5
 DE U         S         3
COLUMNS
    X         A         1
ENDATA
";
    let problem = problem_of(rt.alloc(), deck, None)?;
    let rows = problem.rows();
    let plain = rows.get(2).ok_or("a row")?;
    let sum = rows.get(3).ok_or("a row")?;
    let last = rows.get(4).ok_or("a row")?;
    assert_eq!(rt; (rows.len(), plain.is_combination()), (5, false));
    assert_eq!(rt; (sum.kind, last.kind), (RowKind::G, RowKind::E));
    assert_eq!(rt; part_of(sum, 0)?, (3, Frac::whole(-2)));
    assert_eq!(rt; part_of(sum, 1)?, (2, Frac::whole(1)));
    assert_eq!(rt; part_of(sum, 2)?, (1, Frac::new(1, 2)));
    assert_eq!(rt; part_of(last, 0)?, (4, Frac::whole(3)));
    Ok(())
}

const LAWFUL: [&[u8]; 3] = [
    b"NAME          T
ROWS
 DN COST
 L  A
 DL S
 DL S         A         1
COLUMNS
    X         A         1
RHS
    R         S         1
ENDATA
",
    b"NAME          T
ROWS
 N  COST
 L  'MARKER'
 DL S         'MARKER'  1
COLUMNS
    X         COST      1
ENDATA
",
    b"NAME          ONE       FREE
ROWS
 N COST
 G LOW
 DN S
 DL T COST 1
 DL T LOW -2 S 1
COLUMNS
 X COST 1 LOW 1
ENDATA
",
];

#[test]
fn combinations_may_have_no_parts_and_parts_on_several_cards(rt: HostRuntime) -> Result<(), Fail> {
    for deck in LAWFUL {
        assert_eq!(rt; fault_of(rt.alloc(), deck)?, None);
    }
    Ok(())
}
