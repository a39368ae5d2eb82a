use card_reader::{Cards, read_job};
use deck_fields::{CardStop, DeckFault, DeckFaultKind};
use job_devices::SureSource;
use mps_convert::convert;
use problem_file::{BoundSet, DeckEntry, Group, Problem, RowDecl};
use revise_deck::revise;
use std::alloc::Global;
use std::test::Fail;

// The deck of the old problem.
const OLD: &[u8] = b"NAME          OLD
ROWS
 N  COST
 L  LIM
COLUMNS
    X         COST      1              LIM       1
    Y         COST      2
RHS
    B         LIM       4
RANGES
    R         LIM       2
BOUNDS
 LO BND       X         1
 UP BND       X         3
ENDATA
";

fn cards_of(alloc: Global, text: &[u8]) -> Result<Cards, Fail> {
    let mut source = SureSource::new(alloc, text)?;
    let cards = read_job(alloc, &mut source)?;
    Ok(cards)
}

// The old problem.
fn old_problem(alloc: Global) -> Result<Problem, Fail> {
    let cards = cards_of(alloc, OLD)?;
    let last = cards.count();
    if last == 0 {
        return Err(Fail::from("no card"));
    }
    let problem = convert(alloc, &cards, 1, last, None)
        .ok()
        .ok_or("a problem")?;
    Ok(problem)
}

// The old problem, revised by the deck of a NAME card, these cards and ENDATA.
fn revision(alloc: Global, edits: &[u8]) -> Result<Result<Problem, CardStop<DeckFault>>, Fail> {
    let old = old_problem(alloc)?;
    let mut deck = Vec::from_slice(alloc, b"NAME          REV\n")?;
    deck.extend_from_slice(edits)?;
    deck.extend_from_slice(b"ENDATA\n")?;
    let cards = cards_of(alloc, &deck)?;
    let last = cards.count();
    if last == 0 {
        return Err(Fail::from("no card"));
    }
    Ok(revise(alloc, &old, &cards, 1, last, None))
}

// The problem that such a deck makes of the old one.
pub fn revised(alloc: Global, edits: &[u8]) -> Result<Problem, Fail> {
    match revision(alloc, edits)? {
        Ok(problem) => Ok(problem),
        Err(_) => Err(Fail::from("a fault")),
    }
}

// The fault of such a deck.
pub fn fault_of(alloc: Global, edits: &[u8]) -> Result<Option<(u32, DeckFaultKind)>, Fail> {
    match revision(alloc, edits)? {
        Ok(_) => Ok(None),
        Err(CardStop::Fault(DeckFault { card, kind })) => Ok(Some((card, kind))),
        Err(CardStop::NoMemory) => Err(Fail::from("memory")),
    }
}

// What a problem says, shortly: a line each for the rows, the columns, the right-hand sides, the ranges and the bounds.
pub fn text_of(alloc: Global, problem: &Problem) -> Result<Vec<u8>, Fail> {
    let mut text = Vec::new(alloc);
    put_rows(&mut text, problem.rows())?;
    text.push(b'/')?;
    put_groups(&mut text, problem.columns())?;
    text.push(b'/')?;
    put_groups(&mut text, problem.rhs())?;
    text.push(b'/')?;
    put_groups(&mut text, problem.ranges())?;
    text.push(b'/')?;
    put_bounds(&mut text, problem.bounds())?;
    Ok(text)
}

fn put_rows(text: &mut Vec<u8>, rows: &[RowDecl]) -> Result<(), Fail> {
    for row in rows {
        text.extend_from_slice(row.name.bytes())?;
        put_parts(text, row)?;
        text.push(b' ')?;
    }
    Ok(())
}

fn put_groups(text: &mut Vec<u8>, groups: &[Group<DeckEntry>]) -> Result<(), Fail> {
    for group in groups {
        text.extend_from_slice(group.name.bytes())?;
        put_entries(text, &group.items)?;
    }
    Ok(())
}

fn put_entries(text: &mut Vec<u8>, entries: &[DeckEntry]) -> Result<(), Fail> {
    for entry in entries {
        text.push(b' ')?;
        text.push(digit(entry.row))?;
        text.push(b':')?;
        text.extend_from_slice(entry.value.text())?;
    }
    text.push(b';')?;
    Ok(())
}

fn put_bounds(text: &mut Vec<u8>, sets: &[BoundSet]) -> Result<(), Fail> {
    for set in sets {
        text.extend_from_slice(set.name.bytes())?;
        for bound in &set.items {
            text.push(b' ')?;
            text.push(digit(bound.column))?;
        }
        text.push(b';')?;
    }
    Ok(())
}

// The parts of a row, if it is a combination.
fn put_parts(text: &mut Vec<u8>, row: &RowDecl) -> Result<(), Fail> {
    let Some(parts) = &row.parts else {
        return Ok(());
    };
    text.push(b'=')?;
    let mut is_first = true;
    for part in parts {
        if !is_first {
            text.push(b',')?;
        }
        is_first = false;
        text.push(digit(part.row))?;
        text.push(b':')?;
        text.extend_from_slice(part.value.text())?;
    }
    Ok(())
}

// A number below 10 as a digit.
fn digit(number: u32) -> u8 {
    b'0' + (number % 10) as u8
}
