// The cards of the sections: a section card, and the data cards of COLUMNS, RHS and RANGES.
ghost use Rattle.std.specs.Prelude.{◌≡◌, ◌≤◌, ◌++◌, ◌||◌};
ghost use Rattle.problem_definitions.specs.Names.{same, marker};
ghost use Rattle.problem_definitions.specs.Problem.{entry_count};
ghost use Rattle.problem_definitions.specs.Groups.{in_set};
ghost use Rattle.deck_definitions.specs.DataCards.{entries_of};
ghost use Rattle.deck_definitions.specs.Sections.{may_follow, furthest_next};
ghost use Rattle.deck_definitions.specs.Tests.{columns_fault, set_fault};
ghost use Rattle.named_problem.specs.Taken.{TakesCard};
ghost use Rattle.named_problem.specs.Views.{rows_alone, columns_alone};
ghost use Rattle.deck_fields.specs.Views.{viewed};

use crate::groups::Groups;
use crate::rows::Rows;
use deck_definitions::{DeckFaultKind, Section};
use deck_fields::{CardStop, DataCard, is_blank, is_word, rank_of};
use std::alloc::Global;

// Whether a card marks integer columns.
pub fn is_marker(card: &DataCard<'_>) -> bool
    ensures { result ≡ (same marker card.now.name2 || same marker card.now.name3) }
{
    is_word(b"'MARKER'", card.name2.bytes()) || is_word(b"'MARKER'", card.name3.bytes())
}

/// Takes a card of COLUMNS; so many entries are there already.
pub fn take_column_card(
    alloc: Global,
    rows: &Rows,
    columns: &mut Groups,
    count: u32,
    card: &DataCard<'_>,
) -> Result<(), CardStop<DeckFaultKind>>
    requires few { count ≤ 100000 }
    requires counted { count ≡ entry_count (columns_alone rows.now columns.old) }
    ensures { TakesCard (columns_fault (columns_alone rows.now columns.old) (viewed card.now))
        columns.new
        (in_set card.now.name1 (λ items. items ++ entries_of (viewed card.now)) columns.old)
        result }
{
    if !is_blank(card.kind) {
        return Err(CardStop::Fault(DeckFaultKind::ExtraField));
    }
    if is_marker(card) {
        return Err(CardStop::Fault(DeckFaultKind::Marker));
    }
    if is_blank(card.name1.bytes()) {
        return Err(CardStop::Fault(DeckFaultKind::EmptyName));
    }
    columns.take_column(alloc, rows, count, card)
}

/// Takes a card of RHS or RANGES.
pub fn take_set_card(
    alloc: Global,
    rows: &Rows,
    section: Section,
    sets: &mut Groups,
    card: &DataCard<'_>,
) -> Result<(), CardStop<DeckFaultKind>>
    ensures { TakesCard (set_fault (rows_alone rows.now) section sets.old (viewed card.now))
        sets.new
        (in_set card.now.name1 (λ items. items ++ entries_of (viewed card.now)) sets.old) result }
{
    if !is_blank(card.kind) {
        return Err(CardStop::Fault(DeckFaultKind::ExtraField));
    }
    sets.take(alloc, rows, section, 0, card)
}

// The furthest section that may come next.
fn furthest_after(section: Section) -> Section
    ensures { result ≡ furthest_next section }
{
    match section {
        Section::Header => Section::Rows,
        Section::Rows => Section::Columns,
        Section::Columns => Section::Endata,
        Section::Rhs => Section::Endata,
        Section::Ranges => Section::Endata,
        Section::Bounds => Section::Endata,
        Section::Endata => Section::Endata,
    }
}

/// Whether a section may come next in a data deck.
pub fn follows(before: Section, section: Section) -> bool
    ensures { result ≡ may_follow before section }
{
    rank_of(before) < rank_of(section) && rank_of(section) <= rank_of(furthest_after(before))
}
