use super::decks::fault_of;
use mps_convert::DeckFaultKind;
use std::alloc::Global;
use std::test::Fail;

// Adds cards of ROWS, with the rows R1000, R1001 and on, up to that before this number.
fn add_rows(alloc: Global, deck: &mut Vec<u8>, end: u32) -> Result<(), Fail> {
    deck.extend_from_slice(b"NAME          T\nROWS\n")?;
    for row in 1000..end {
        let card = format!(in alloc; " L  R{row}\n")?;
        deck.extend_from_slice(card.as_bytes())?;
    }
    deck.extend_from_slice(b"COLUMNS\n")?;
    Ok(())
}

// Adds cards of COLUMNS, with columns of one entry from C10000 to that before this number.
fn add_columns(alloc: Global, deck: &mut Vec<u8>, end: u32) -> Result<(), Fail> {
    for column in 10000..end {
        let card = format!(in alloc; "    C{column}    R1000     1\n")?;
        deck.extend_from_slice(card.as_bytes())?;
    }
    Ok(())
}

// Adds the cards of a column with an entry on each of 1,000 rows, two on a card.
fn add_full_column(alloc: Global, deck: &mut Vec<u8>, column: u32) -> Result<(), Fail> {
    for tens in 100..200 {
        for (first, second) in [(0, 1), (2, 3), (4, 5), (6, 7), (8, 9)] {
            let card = format!(in alloc;
                "    C{column}    R{tens}{first}     1              R{tens}{second}     1\n"
            )?;
            deck.extend_from_slice(card.as_bytes())?;
        }
    }
    Ok(())
}

// A deck at a limit: rows up to that before a number, columns up to that before a number, or 1,000 rows with 50 full columns and
// these cards after them.
#[derive(Clone, Copy)]
enum LargeDeck {
    Rows(u32),
    Columns(u32),
    FullColumns(&'static [u8]),
}

fn built(alloc: Global, large: LargeDeck) -> Result<Vec<u8>, Fail> {
    let mut deck = Vec::new(alloc);
    let last_cards: &[u8] = match large {
        LargeDeck::Rows(end) => {
            add_rows(alloc, &mut deck, end)?;
            b"ENDATA\n"
        }
        LargeDeck::Columns(end) => {
            add_rows(alloc, &mut deck, 1001)?;
            add_columns(alloc, &mut deck, end)?;
            b"ENDATA\n"
        }
        LargeDeck::FullColumns(cards) => {
            add_rows(alloc, &mut deck, 2000)?;
            for column in 10000..10050 {
                add_full_column(alloc, &mut deck, column)?;
            }
            cards
        }
    };
    deck.extend_from_slice(last_cards)?;
    Ok(deck)
}

// 1,000 rows may be, and their cards are those up to 1,002. 5,000 columns may be, and their cards are those up to 5,004. 1,000 rows
// and 50 full columns are 50,000 entries, on the cards up to 26,003, and no entry more may be.
const LARGE_DECKS: [(&str, LargeDeck, Option<(u32, DeckFaultKind)>); 6] = [
    ("as many rows as may be", LargeDeck::Rows(2000), None),
    (
        "a row too many",
        LargeDeck::Rows(2001),
        Some((1003, DeckFaultKind::TooManyRows)),
    ),
    ("as many columns as may be", LargeDeck::Columns(15000), None),
    (
        "a column too many",
        LargeDeck::Columns(15001),
        Some((5005, DeckFaultKind::TooManyColumns)),
    ),
    (
        "as many entries as may be",
        LargeDeck::FullColumns(b"ENDATA\n"),
        None,
    ),
    (
        "an entry too many",
        LargeDeck::FullColumns(b"    LAST      R1000     1\n"),
        Some((26004, DeckFaultKind::TooManyEntries)),
    ),
];

#[test]
fn decks_are_at_their_limits(rt: HostRuntime) -> Result<(), Fail> {
    for (name, large, fault) in LARGE_DECKS {
        let deck = built(rt.alloc(), large)?;
        let found = fault_of(rt.alloc(), &deck)?;
        assert_eq!(rt; found, fault, "{name}");
    }
    Ok(())
}
