// What is printed of an end of a run.
ghost use Rattle.std.specs.Prelude.{◌≡◌};
ghost use Rattle.report_text.specs.Views.{IsEnding, ending_view};
ghost use Rattle.run_definitions.specs.Verbs.{deck_fault_number, number_fault_of, column_of};
ghost use Rattle.run_machine.specs.declared.end.End.TheVariants as ends;
ghost use Rattle.run_machine.specs.Ends.{end_view};

use crate::end::{End, Place, SingularBasis};
use card_definitions::NumberFault;
use deck_definitions::DeckFaultKind;
use listing_tables::Sheet;
use lp_definitions::Evidence;
use report_text::Ending;

// The number of a deck fault.
fn deck_fault_number(kind: DeckFaultKind) -> u8
    ensures { result ≡ deck_fault_number kind }
{
    match kind {
        DeckFaultKind::SectionOrder => 1,
        DeckFaultKind::UnknownSection => 2,
        DeckFaultKind::BadRowType => 3,
        DeckFaultKind::DuplicateRow => 4,
        DeckFaultKind::ColumnSplit => 5,
        DeckFaultKind::UnknownRow => 6,
        DeckFaultKind::DuplicateEntry => 7,
        DeckFaultKind::Number(_, _) => 8,
        DeckFaultKind::RangeOnFree => 9,
        DeckFaultKind::BadBoundType => 10,
        DeckFaultKind::UnknownColumn => 11,
        DeckFaultKind::BoundTwice => 12,
        DeckFaultKind::NoEndata => 13,
        DeckFaultKind::Marker => 14,
        DeckFaultKind::EmptyName => 15,
        DeckFaultKind::TooManyRows => 16,
        DeckFaultKind::TooManyColumns => 17,
        DeckFaultKind::TooManyEntries => 18,
        DeckFaultKind::ExtraField => 20,
        DeckFaultKind::UnknownAction => 21,
        DeckFaultKind::NoAnchor => 22,
        DeckFaultKind::DeleteMissing => 23,
        DeckFaultKind::ModifyMissing => 24,
        DeckFaultKind::WordCount => 25,
        DeckFaultKind::LongName => 26,
        DeckFaultKind::LongNumber => 27,
        DeckFaultKind::EntryOnCombination => 28,
        DeckFaultKind::BadBasisCode => 30,
        DeckFaultKind::NamedTwice => 31,
        DeckFaultKind::NoSuchLimit => 32,
    }
}

// The number of a fault in a number.
fn number_fault(kind: DeckFaultKind) -> Option<u8>
    ensures { result ≡ number_fault_of kind }
{
    match kind {
        DeckFaultKind::Number(NumberFault::Empty, _) => Some(1),
        DeckFaultKind::Number(NumberFault::BadCharacter(_), _) => Some(2),
        DeckFaultKind::Number(NumberFault::NoDigit, _) => Some(3),
        DeckFaultKind::Number(NumberFault::ExponentRange, _) => Some(4),
        _ => None,
    }
}

// The column of a character that is no part of a number.
fn column_of(kind: DeckFaultKind) -> Option<u8>
    ensures { result ≡ column_of kind }
{
    match kind {
        DeckFaultKind::Number(NumberFault::BadCharacter(_), column) => Some(column),
        _ => None,
    }
}

// What is printed where an operation is refused.
fn overflow_of<'a>(evidence: &'a Evidence, place: &'a Option<Place>, card: u32) -> Ending<'a>
    ensures viewed { ending_view result ≡ end_view (ends.Overflow evidence.now place.now card) }
    ensures lawful { IsEnding result }
{
    match place {
        Some(place) => Ending::Overflow {
            evidence,
            basis: Some(&place.basis),
            way: &place.way,
            card,
        },
        None => Ending::Overflow {
            evidence,
            basis: None,
            way: &[],
            card,
        },
    }
}

// What is printed of a singular basis.
fn singular_of(card: u32, basis: &SingularBasis) -> Ending<'_>
    ensures viewed { ending_view result ≡ end_view (ends.Singular card basis.now) }
    ensures lawful { IsEnding result }
{
    match basis.file.get(&basis.name) {
        Some(problem) => Ending::Singular {
            card,
            sheet: Sheet {
                problem,
                lp: &basis.lp,
            },
            dependency: &basis.dependency,
        },
        None => unreachable!(),
    }
}

/// What is printed of an end.
pub fn ending_of(end: &End) -> Ending<'_>
    ensures viewed { ending_view result ≡ end_view end.now }
    ensures lawful { IsEnding result }
{
    match end {
        End::Done => Ending::Code(0),
        End::Infeasible => Ending::Code(1),
        End::Unbounded => Ending::Code(2),
        End::Verb { fault, card } => Ending::Verb {
            fault: *fault,
            card: *card,
        },
        End::Singular { card, basis } => singular_of(*card, basis),
        End::WrongPrices { card, variable } => Ending::WrongPrices {
            card: *card,
            variable: *variable,
        },
        End::Deck(fault) => Ending::Deck {
            fault: deck_fault_number(fault.kind),
            card: fault.card,
            number: number_fault(fault.kind),
            column: column_of(fault.kind),
        },
        End::Limit { limit, card } => Ending::Limit {
            limit: *limit,
            card: *card,
        },
        End::Statements => Ending::Statements,
        End::Overflow {
            evidence,
            place,
            card,
        } => overflow_of(evidence, place, *card),
        End::Memory => Ending::Memory,
    }
}
