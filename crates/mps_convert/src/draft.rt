// A problem in the making, card by card.
ghost use Rattle.std.specs.Prelude.{◌≡◌, ◌≤◌, ◌++◌, None, length, sum_by, OnOk};
ghost use Rattle.problem_definitions.specs.Groups.{in_set};
ghost use Rattle.deck_definitions.specs.DataCards.{entries_of};
ghost use Rattle.deck_definitions.specs.Tests.{columns_fault};
ghost use Rattle.named_problem.specs.Taken.{TakesCard};
ghost use Rattle.named_problem.specs.Views.{columns_alone};
ghost use Rattle.deck_fields.specs.Views.{viewed};
ghost use Rattle.problem_definitions.specs.declared.TheConstants.{MAX_ENTRIES};

use crate::problem_draft::ProblemDraft;
use card_reader::Card;
use deck_definitions::Style;
use deck_fields::{
    CardStop, DataCard, Draft, SectionOrder, begins_section, is_blank as is_empty_text, is_section,
    next_section, read_data_card, style_begun,
};
use name_table::Name;
use named_problem::{
    BoundSets, DeckFaultKind, Groups, Rows, Section, follows, take_bound_card, take_column_card,
    take_row_card, take_set_card,
};
use problem_file::{NoMemory, Problem};
use std::alloc::Global;

// How many pairs a data card has.
fn pair_count(card: &DataCard<'_>) -> u32
    ensures count { result ≡ length (entries_of (viewed card.now)) }
    ensures few { result ≤ 2 }
{
    if is_empty_text(card.name3.bytes()) && is_empty_text(card.value2) {
        return 1;
    }
    2
}

// Takes a card of COLUMNS, and counts the entries. An `Err` leaves no column.
fn take_column(
    alloc: Global,
    rows: &Rows,
    columns: &mut Groups,
    entries: &mut u32,
    card: &DataCard<'_>,
) -> Result<(), CardStop<DeckFaultKind>>
    requires counted { entries.old ≡ sum_by (λ column. length column.items) columns.old }
    requires few { entries.old ≤ MAX_ENTRIES }
    ensures counted { entries.new ≡ sum_by (λ column. length column.items) columns.new }
    ensures few { entries.new ≤ MAX_ENTRIES }
    ensures taken { TakesCard (columns_fault (columns_alone rows.now columns.old) (viewed card.now))
        columns.new
        (in_set card.now.name1 (λ items. items ++ entries_of (viewed card.now)) columns.old)
        result }
{
    let _ = columns.len();
    match take_column_card(alloc, rows, columns, *entries, card) {
        Ok(()) => {
            *entries += pair_count(card);
            Ok(())
        }
        Err(stop) => {
            *columns = Groups::new(alloc);
            *entries = 0;
            Err(stop)
        }
    }
}

/// A problem in the making: the section that goes on, the style of the deck, and what the cards so far describe.
#[derive(Drop)]
pub struct DeckDraft {
    alloc: Global,
    section: Option<Section>,
    style: Style,
    rows: Rows,
    columns: Groups,
    entries: u32,
    rhs: Groups,
    ranges: Groups,
    bounds: BoundSets,
    ghost counted: { entries ≡ sum_by (λ column. length column.items) columns },
    ghost few: { entries ≤ MAX_ENTRIES },
}

impl DeckDraft {
    ghost use Rattle.std.specs.Prelude.{◌≡◌, [], None, Some, OnOk};
    ghost use Rattle.card_reader.specs.Card.{card_bytes};
    ghost use Rattle.deck_definitions.specs.declared.Style.TheVariants.{FixedFields};
    ghost use Rattle.deck_definitions.specs.DataCards.{style_begun};
    ghost use Rattle.deck_definitions.specs.Conversion.{section_fault, data_card_fault};
    ghost use Rattle.deck_definitions.specs.Steps.{with_card};
    ghost use Rattle.mps_convert.specs.State.{with_data, fault_at, state_with};
    ghost use Rattle.named_problem.specs.Taken.{TakesCard};
    ghost use Rattle.deck_fields.specs.Views.{viewed};
    ghost use Rattle.mps_convert.specs.DraftView.{problem_view, state_view};

    /// A draft after no card, which grows in this memory.
    pub fn new(alloc: Global) -> DeckDraft
        ensures section { result.section ≡ None }
        ensures style { result.style ≡ FixedFields }
        ensures problem { problem_view result ≡ record {
          name = [];
          rows = [];
          columns = [];
          rhs =
              [];
          ranges = [];
          bounds = [];
        } }
    {
        DeckDraft {
            alloc,
            section: None,
            style: Style::FixedFields,
            rows: Rows::new(alloc),
            columns: Groups::new(alloc),
            entries: 0,
            rhs: Groups::new(alloc),
            ranges: Groups::new(alloc),
            bounds: BoundSets::new(alloc),
        }
    }

    // Takes a data card of this section.
    fn take_in(
        &mut self,
        section: Section,
        card: &DataCard<'_>,
    ) -> Result<(), CardStop<DeckFaultKind>>
        ensures taken { TakesCard (section_fault (problem_view self.old) section (viewed card.now))
            (problem_view self.new) (with_card section (viewed card.now) (problem_view self.old))
            result }
        ensures same_section { OnOk result (self.new.section ≡ self.old.section) }
        ensures same_style { OnOk result (self.new.style ≡ self.old.style) }
    {
        match section {
            Section::Rows => take_row_card(self.alloc, &mut self.rows, card),
            Section::Columns => take_column(
                self.alloc,
                &self.rows,
                &mut self.columns,
                &mut self.entries,
                card,
            ),
            Section::Rhs => {
                take_set_card(self.alloc, &self.rows, Section::Rhs, &mut self.rhs, card)
            }
            Section::Ranges => {
                take_set_card(
                    self.alloc,
                    &self.rows,
                    Section::Ranges,
                    &mut self.ranges,
                    card,
                )
            }
            Section::Bounds => {
                take_bound_card(self.alloc, &self.columns, &mut self.bounds, card)
            }
            Section::Header | Section::Endata => {
                Err(CardStop::Fault(DeckFaultKind::SectionOrder))
            }
        }
    }

    // Takes a data card.
    fn take_data(&mut self, card: Card<'_>) -> Result<(), CardStop<DeckFaultKind>>
        ensures taken { TakesCard
            (data_card_fault (problem_view self.old) self.old.style self.old.section
            (card_bytes card.entry)) (problem_view self.new)
            (with_data self.old.section self.old.style (card_bytes card.entry)
            (problem_view self.old)) result }
        ensures same_section { OnOk result (self.new.section ≡ self.old.section) }
        ensures same_style { OnOk result (self.new.style ≡ self.old.style) }
    {
        let Some(section) = self.section else {
            return Err(CardStop::Fault(DeckFaultKind::SectionOrder));
        };
        if is_section(Section::Header, section) {
            return Err(CardStop::Fault(DeckFaultKind::SectionOrder));
        }
        match read_data_card(card, self.style, section, false) {
            Ok(data) => self.take_in(section, &data),
            Err(kind) => Err(CardStop::Fault(kind)),
        }
    }

    // Takes a card.
    fn take_card(&mut self, card: Card<'_>) -> Result<(), CardStop<DeckFaultKind>>
        ensures { TakesCard (fault_at (state_view self.old) (card_bytes card.entry))
            (state_view self.new) (state_with (state_view self.old) (card_bytes card.entry)) result }
    {
        if begins_section(card.bytes()) {
            let section = next_section::<DeckDraft>(self.section, card.bytes())?;
            self.section = Some(section);
            self.style = style_begun(card).unwrap_or(self.style);
            return Ok(());
        }
        self.take_data(card)
    }
}

impl ProblemDraft for DeckDraft {
    ghost use Rattle.mps_convert.specs.DraftView.{problem_named};

    ghost problem_under = { problem_named };

    #[tactic(auto, unfolding(problem_definitions::specs::Numbering::numbered))]
    fn problem(&self, name: Name) -> Result<Problem, NoMemory> {
        let rows = self.rows.decls(self.alloc)?;
        let columns = self.columns.numbered(self.alloc, &self.rows)?;
        let rhs = self.rhs.numbered(self.alloc, &self.rows)?;
        let ranges = self.ranges.numbered(self.alloc, &self.rows)?;
        let bounds = self.bounds.numbered(self.alloc, &self.columns)?;
        Ok(Problem::new(name, rows, columns, rhs, ranges, bounds))
    }
}

impl SectionOrder for DeckDraft {
    ghost use Rattle.deck_definitions.specs.Sections.{may_follow};

    ghost follows = { may_follow };

    fn may_follow(before: Section, section: Section) -> bool {
        follows(before, section)
    }
}

impl Draft for DeckDraft {
    ghost use Rattle.std.specs.Prelude.{◌≡◌};
    ghost use Rattle.deck_definitions.specs.Conversion.{card_fault};
    ghost use Rattle.mps_convert.specs.State.{state_of};
    ghost use Rattle.mps_convert.specs.DraftView.{state_view};

    ghost test = { λ _. card_fault };

    ghost is_made_of = { λ _ draft seen. state_view draft ≡ state_of seen };

    fn section(&self) -> Option<Section> {
        self.section
    }

    fn take(&mut self, card: Card<'_>) -> Result<(), CardStop<DeckFaultKind>> {
        self.take_card(card)
    }
}
