use super::problems::problem_of;
use basis_deck::{CardStop, DeckFault, DeckFaultKind, read_basis};
use card_reader::read_job;
use job_devices::SureSource;
use lp_model::{Basis, Lp, Sense, Status};
use lp_setup::{Choice, SetupOptions, select};
use name_table::Name;
use problem_file::Problem;
use std::alloc::Global;
use std::test::Fail;
use test_decks::problems::SMALL;

// A row and a column of one name.
const TWINS: &[u8] = b"NAME          T
ROWS
 N  COST
 G  X
COLUMNS
    X         COST      1              X         1
ENDATA
";

// The linear program of a problem with its set BND, if it has one.
fn program_of(alloc: Global, problem: &Problem) -> Result<Lp, Fail> {
    let bound = match problem.bounds() {
        [] => None,
        _ => Name::of(b"BND"),
    };
    let options = SetupOptions {
        bound,
        range: None,
        sense: Sense::Min,
    };
    let choice = Choice {
        objective: None,
        rhs: None,
        options,
    };
    let lp = select(alloc, problem, &choice)
        .ok()
        .ok_or("a linear program")?;
    Ok(lp)
}

// The letter of a status.
fn letter(status: Status) -> u8 {
    match status {
        Status::Bs => b'B',
        Status::Ll => b'L',
        Status::Ul => b'U',
        Status::Fr => b'F',
    }
}

// The statuses of a basis, a letter for each.
fn letters(alloc: Global, basis: &Basis) -> Result<Vec<u8>, Fail> {
    let mut letters = Vec::new(alloc);
    for status in basis.statuses() {
        letters.push(letter(*status))?;
    }
    Ok(letters)
}

// The statuses for which a basis deck of a problem stands, or the card and the kind of its fault.
fn reading(
    alloc: Global,
    problem: &[u8],
    deck: &[u8],
) -> Result<Result<Vec<u8>, (u32, DeckFaultKind)>, Fail> {
    let problem = problem_of(alloc, problem, None)?;
    let lp = program_of(alloc, &problem)?;
    let mut source = SureSource::new(alloc, deck)?;
    let cards = read_job(alloc, &mut source)?;
    let last = cards.count();
    if last == 0 || problem.row_count() != lp.rows || problem.column_count() != lp.cols {
        return Err(Fail::from("no card, or another problem"));
    }
    match read_basis(alloc, &problem, &lp, &cards, 1, last) {
        Ok(basis) => Ok(Ok(letters(alloc, &basis)?)),
        Err(CardStop::Fault(DeckFault { card, kind })) => Ok(Err((card, kind))),
        Err(CardStop::NoMemory) => Err(Fail::from("memory")),
    }
}

#[test]
fn basis_decks_stand_for_bases(rt: HostRuntime) -> Result<(), Fail> {
    let decks: [(&[u8], &[u8]); 5] = [
        (
            b"NAME          START
 XU A         UPR
 XL C         EQ
 UL B
ENDATA
",
            b"BUBLBUB",
        ),
        (
            b"NAME          START
 UL B
* a comment
 XL C         EQ

 XU A         UPR
ENDATA
",
            b"BUBLBUB",
        ),
        (b"NAME          NOTHING       FREE\nENDATA\n", b"BBBBLUL"),
        (b"NAME\n LL A\n UL C\nENDATA\n", b"BBBBLUU"),
        (b"NAME\n XL B         LOR\nENDATA\n", b"BBLBLBL"),
    ];
    for (deck, expected) in decks {
        let found = reading(rt.alloc(), SMALL, deck)?.ok().ok_or("a basis")?;
        assert_eq!(rt; found.as_slice(), expected);
    }
    let found = reading(rt.alloc(), TWINS, b"NAME\n XL X         X\nENDATA\n")?;
    assert_eq!(rt; found.ok().ok_or("a basis")?.as_slice(), b"BLB".as_slice());
    Ok(())
}

// A kind of fault; decks or cards that have it, and the card of it.
type Faults = (DeckFaultKind, &'static [(&'static [u8], u32)]);

const SECTIONS: [Faults; 3] = [
    (
        DeckFaultKind::SectionOrder,
        &[
            (b"NAME          S\nROWS\nENDATA\n", 2),
            (b"NAME          S\nNAME\nENDATA\n", 2),
            (b"NAM           S\nENDATA\n", 1),
            (b" UL A\nENDATA\n", 1),
            (b"NAME          S\nENDATA\nENDATA\n", 3),
            (b"NAME          S\nENDATA\n UL A\n", 3),
        ],
    ),
    (
        DeckFaultKind::UnknownSection,
        &[(b"NAME          S\nROW\nENDATA\n", 2)],
    ),
    (
        DeckFaultKind::NoEndata,
        &[(b"NAME          S\n UL A\n\n", 3)],
    ),
];

// Data cards, each of them or two after a NAME card and before ENDATA.
const DATA_CARDS: [Faults; 6] = [
    (
        DeckFaultKind::BadBasisCode,
        &[(b" XX A         UPR", 2), (b"    A         UPR", 2)],
    ),
    (
        DeckFaultKind::UnknownColumn,
        &[(b" UL NONE", 2), (b" XL NONE      NONE", 2)],
    ),
    (
        DeckFaultKind::UnknownRow,
        &[(b" XL A         NONE", 2), (b" XL A", 2)],
    ),
    (
        DeckFaultKind::NamedTwice,
        &[
            (b" XL A         LOR\n UL A", 3),
            (b" UL A\n XL A         LOR", 3),
            (b" XL A         LOR\n XL C         LOR", 3),
            (b" UL B\n LL B", 3),
        ],
    ),
    (
        DeckFaultKind::NoSuchLimit,
        &[
            (b" XL A         UPR", 2),
            (b" XU A         LOR", 2),
            (b" XL A         COST", 2),
            (b" LL B", 2),
            (b" LL B         UPR", 2),
        ],
    ),
    (
        DeckFaultKind::ExtraField,
        &[
            (b" LL A         UPR", 2),
            (b" XL A         LOR       1", 2),
            (b" XL A         LOR                      B", 2),
            (b" XLXA         LOR", 2),
        ],
    ),
];

// The cards before and after those that are listed.
#[derive(Clone, Copy)]
struct Group {
    name: &'static str,
    before: &'static [u8],
    listed: &'static [Faults],
    after: &'static [u8],
}

const GROUPS: [Group; 2] = [
    Group {
        name: "sections",
        before: b"",
        listed: &SECTIONS,
        after: b"",
    },
    Group {
        name: "data cards",
        before: b"NAME          S\n",
        listed: &DATA_CARDS,
        after: b"\nENDATA\n",
    },
];

#[test]
fn basis_decks_have_faults(rt: HostRuntime) -> Result<(), Fail> {
    for group in &GROUPS {
        for (kind, faulty) in group.listed {
            for (cards, card) in *faulty {
                let mut deck = Vec::from_slice(rt.alloc(), group.before)?;
                deck.extend_from_slice(cards)?;
                deck.extend_from_slice(group.after)?;
                let found = reading(rt.alloc(), SMALL, &deck)?.err();
                assert_eq!(rt; found, Some((*card, *kind)), "{}", group.name);
            }
        }
    }
    Ok(())
}
