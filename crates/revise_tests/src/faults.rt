use crate::decks::fault_of;
use deck_fields::DeckFaultKind;
use std::test::Fail;

// Cards under actions, and the card of their first fault.
type Fault = (&'static [u8], u32, DeckFaultKind);

// Actions, and what is missing.
const ACTIONS: [Fault; 8] = [
    (b"ROWS\n CHANGE\n G  LIM\n", 3, DeckFaultKind::UnknownAction),
    (b"ROWS\n G  LIM\n", 3, DeckFaultKind::UnknownAction),
    (b"RHS\n BEFORE       B\n", 3, DeckFaultKind::UnknownAction),
    (b"COLUMNS\n AFTER        Z\n", 3, DeckFaultKind::NoAnchor),
    (b"ROWS\n DELETE\n    ZZ\n", 4, DeckFaultKind::DeleteMissing),
    (
        b"COLUMNS\n MODIFY\n    Z         LIM       1\n",
        4,
        DeckFaultKind::ModifyMissing,
    ),
    (b"ROWS\n MODIFY\n N  LIM\n", 4, DeckFaultKind::RangeOnFree),
    (b" MODIFY\nROWS\n", 2, DeckFaultKind::SectionOrder),
];

const COMBINATIONS: [Fault; 13] = [
    (
        b"ROWS\n BEFORE       LIM\n DL U         LIM       1\n",
        4,
        DeckFaultKind::UnknownRow,
    ),
    (
        b"ROWS\n AFTER\n DL S         S         1\n",
        4,
        DeckFaultKind::UnknownRow,
    ),
    (
        b"ROWS\n AFTER\n DL S         COST      1\n DL S         COST      2\n",
        5,
        DeckFaultKind::DuplicateEntry,
    ),
    (
        b"ROWS\n AFTER\n DL S         COST      1\n DG S         LIM       1\n",
        5,
        DeckFaultKind::DuplicateRow,
    ),
    (
        b"ROWS
 AFTER
 DL S         COST      1
 AFTER
 DL S         LIM       1
",
        6,
        DeckFaultKind::DuplicateRow,
    ),
    (
        b"ROWS\n AFTER\n L  S         COST      1\n",
        4,
        DeckFaultKind::ExtraField,
    ),
    (
        b"ROWS\n AFTER\n DL S         COST      1                        2\n",
        4,
        DeckFaultKind::EmptyName,
    ),
    (
        b"ROWS\n MODIFY\n DL LIM       COST      1\n",
        4,
        DeckFaultKind::BadRowType,
    ),
    (
        b"ROWS
 AFTER
 DL S         COST      1
 MODIFY
 L  S
",
        6,
        DeckFaultKind::BadRowType,
    ),
    (
        b"ROWS
 AFTER
 DL S         COST      1
 MODIFY
 DL S         S         1
",
        6,
        DeckFaultKind::UnknownRow,
    ),
    (
        b"ROWS
 AFTER
 DL S         COST      1
 DELETE
    S         COST     \x20
",
        6,
        DeckFaultKind::ExtraField,
    ),
    (
        b"ROWS
 AFTER
 DL S         COST      1
COLUMNS
 MODIFY
    X         S         1
",
        7,
        DeckFaultKind::EntryOnCombination,
    ),
    (
        b"ROWS
 AFTER
 DL S         COST      1
COLUMNS
 AFTER
    Z         S         1
",
        7,
        DeckFaultKind::EntryOnCombination,
    ),
];

#[test]
fn decks_have_their_first_fault(rt: HostRuntime) -> Result<(), Fail> {
    let tables: [(&str, &[Fault]); 2] = [("action", &ACTIONS), ("combination", &COMBINATIONS)];
    for (name, faults) in tables {
        for (place, (edits, card, kind)) in faults.iter().enumerate() {
            let found = fault_of(rt.alloc(), edits)?;
            assert_eq!(rt; found, Some((*card, *kind)), "{name} {place}");
        }
    }
    Ok(())
}
