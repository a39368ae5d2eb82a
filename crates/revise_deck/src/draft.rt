// A problem under revision, card by card.
ghost use Rattle.std.specs.Prelude.{◌≡◌, [], None, Some};

use crate::numbering::renumbered;
use crate::sections::{action_fault_of, action_of, anchor_of, comes_after, is_action, is_deletion};
use card_reader::Card;
use deck_definitions::Style;
use deck_fields::{
    CardStop, DataCard, Draft, SectionOrder, begins_section, is_section, name_in, next_section,
    read_data_card, style_begun,
};
use mps_convert::ProblemDraft;
use name_table::Name;
use named_problem::{DeckFaultKind, NamedProblem, Section};
use problem_file::{NoMemory, Problem};
use revise_definitions::Action;
use revise_edits::{UnderAction, edit, edit_fault_of};
use std::alloc::Global;

/// A problem under revision: the deck's style, the section and the action that go on, what is known of the data cards under the
/// action, and the problem after the cards so far.
#[derive(Drop)]
pub struct ReviseDraft {
    alloc: Global,
    style: Style,
    section: Option<Section>,
    action: Option<Action>,
    under: UnderAction,
    problem: NamedProblem,
}

impl ReviseDraft {
    ghost use Rattle.std.specs.Prelude.{◌≡◌, [], None, Some, unwrap_or};
    ghost use Rattle.std.specs.Option.{option_or};
    ghost use Rattle.card_definitions.specs.Words.{named};
    ghost use Rattle.card_reader.specs.Card.{card_bytes};
    ghost use Rattle.deck_definitions.specs.Sections.{section_words, section_word};
    ghost use Rattle.deck_definitions.specs.declared.Style.TheVariants.{FixedFields};
    ghost use Rattle.deck_definitions.specs.DataCards.{style_begun};
    ghost use Rattle.deck_definitions.specs.Conversion.{section_card_fault};
    ghost use Rattle.revise_definitions.specs.Revision.{may_come_after};
    ghost use Rattle.named_problem.specs.Taken.{TakesCard};
    ghost use Rattle.deck_fields.specs.Views.{viewed};
    ghost use Rattle.revise_definitions.specs.Actions.{action_on, anchor_on};
    ghost use Rattle.revise_definitions.specs.Tests.{action_fault};
    ghost use Rattle.revise_edits.specs.Summary.{under_of, with_card_under, edited_by};
    ghost use Rattle.revise_edits.specs.EditTests.{edit_test};
    ghost use Rattle.revise_deck.specs.State.{read_at, data_fault, standing_fault, inner_fault, inner_with, problem_with, fault_at, state_with};
    ghost use Rattle.revise_deck.specs.DraftView.{state_view};

    /// A draft after no card, of this problem.
    pub fn new(alloc: Global, problem: NamedProblem) -> ReviseDraft
        ensures { state_view result ≡ record {
          style = FixedFields;
          section = None;
          action = None;
          under = under_of []
              [];
          problem = problem;
        } }
    {
        ReviseDraft {
            alloc,
            style: Style::FixedFields,
            section: None,
            action: None,
            under: UnderAction::new(alloc, name_in(b"")),
            problem,
        }
    }

    // Takes a data card of this section under this action.
    fn take_in(
        &mut self,
        section: Section,
        action: Action,
        card: &DataCard<'_>,
    ) -> Result<(), CardStop<DeckFaultKind>>
        ensures { TakesCard
            (edit_test self.old.problem section action self.old.under (viewed card.now))
            (state_view self.new) (record (state_view self.old) {
              under = with_card_under self.old.under (viewed card.now);
              problem = edited_by section
                  action self.old.under (viewed card.now) self.old.problem;
            }) result }
    {
        if let Some(kind) = edit_fault_of(&self.problem, section, action, &self.under, card) {
            return Err(CardStop::Fault(kind));
        }
        edit(
            self.alloc,
            section,
            action,
            &self.under,
            card,
            &mut self.problem,
        )?;
        self.under.add(card)
    }

    // Takes a data card of this section.
    fn take_data(&mut self, section: Section, card: Card<'_>) -> Result<(), CardStop<DeckFaultKind>>
        requires { self.old.section ≡ Some section }
        ensures { TakesCard (data_fault (state_view self.old) section (card_bytes card.entry))
            (state_view self.new) (record (state_view self.old) {
              under = with_card_under self.old.under (read_at (state_view self.old)
                  (card_bytes card.entry));
              problem = problem_with (state_view self.old) (read_at (state_view self.old)
                  (card_bytes card.entry));
            }) result }
    {
        let Some(action) = self.action else {
            return Err(CardStop::Fault(DeckFaultKind::UnknownAction));
        };
        match read_data_card(card, self.style, section, is_deletion(action)) {
            Ok(data) => self.take_in(section, action, &data),
            Err(kind) => Err(CardStop::Fault(kind)),
        }
    }

    // Takes an action card of this section.
    fn take_action(
        &mut self,
        section: Section,
        card: Card<'_>,
    ) -> Result<(), CardStop<DeckFaultKind>>
        ensures { TakesCard
            (action_fault self.old.problem section
            (action_on self.old.style (card_bytes card.entry))
            (anchor_on self.old.style (card_bytes card.entry)))
            (state_view self.new) (record (state_view self.old) {
              action = action_on self.old.style (card_bytes card.entry);
              under = under_of
                  (unwrap_or (anchor_on self.old.style (card_bytes card.entry)) []) [];
            }) result }
    {
        let action = action_of(card, self.style);
        let anchor = anchor_of(card, self.style);
        if let Some(kind) = action_fault_of(&self.problem, section, action, &anchor) {
            return Err(CardStop::Fault(kind));
        }
        let name = match anchor {
            Some(name) => name,
            None => name_in(b""),
        };
        self.action = action;
        self.under = UnderAction::new(self.alloc, name);
        Ok(())
    }

    // Takes an action card or a data card of this section.
    fn take_standing(
        &mut self,
        section: Section,
        card: Card<'_>,
    ) -> Result<(), CardStop<DeckFaultKind>>
        requires { self.old.section ≡ Some section }
        ensures { TakesCard (standing_fault (state_view self.old) section (card_bytes card.entry))
            (state_view self.new) (inner_with (state_view self.old) (card_bytes card.entry)) result }
    {
        if is_action(card, self.style) {
            return self.take_action(section, card);
        }
        self.take_data(section, card)
    }

    // Takes an action card or a data card.
    fn take_inner(&mut self, card: Card<'_>) -> Result<(), CardStop<DeckFaultKind>>
        ensures { TakesCard (inner_fault (state_view self.old) (card_bytes card.entry))
            (state_view self.new) (inner_with (state_view self.old) (card_bytes card.entry)) result }
    {
        let Some(section) = self.section else {
            return Err(CardStop::Fault(DeckFaultKind::SectionOrder));
        };
        if is_section(Section::Header, section) {
            return Err(CardStop::Fault(DeckFaultKind::SectionOrder));
        }
        self.take_standing(section, card)
    }

    // Takes a section card.
    fn take_section(&mut self, card: Card<'_>) -> Result<(), CardStop<DeckFaultKind>>
        ensures { TakesCard
            (section_card_fault may_come_after self.old.section (card_bytes card.entry))
            (state_view self.new) (record (state_view self.old) {
              style = unwrap_or (style_begun (card_bytes card.entry)) self.old.style;
              section = option_or (named section_words (section_word (card_bytes card.entry)))
                  self.old.section;
              action = None;
              under = under_of [] [];
            }) result }
    {
        let section = next_section::<ReviseDraft>(self.section, card.bytes())?;
        self.style = style_begun(card).unwrap_or(self.style);
        self.section = Some(section);
        self.action = None;
        self.under = UnderAction::new(self.alloc, name_in(b""));
        Ok(())
    }

    // Takes a card.
    fn take_card(&mut self, card: Card<'_>) -> Result<(), CardStop<DeckFaultKind>>
        ensures { TakesCard (fault_at (state_view self.old) (card_bytes card.entry))
            (state_view self.new) (state_with (state_view self.old) (card_bytes card.entry)) result }
    {
        if begins_section(card.bytes()) {
            return self.take_section(card);
        }
        self.take_inner(card)
    }
}

impl ProblemDraft for ReviseDraft {
    ghost use Rattle.revise_deck.specs.DraftView.{problem_named};

    ghost problem_under = { problem_named };

    fn problem(&self, name: Name) -> Result<Problem, NoMemory> {
        renumbered(self.alloc, &self.problem, name)
    }
}

impl SectionOrder for ReviseDraft {
    ghost use Rattle.revise_definitions.specs.Revision.{may_come_after};

    ghost follows = { may_come_after };

    fn may_follow(before: Section, section: Section) -> bool {
        comes_after(before, section)
    }
}

impl Draft for ReviseDraft {
    ghost use Rattle.std.specs.Prelude.{◌≡◌};
    ghost use Rattle.revise_definitions.specs.Revision.{revise_card_fault};
    ghost use Rattle.revise_deck.specs.State.{state_of};
    ghost use Rattle.revise_deck.specs.DraftView.{state_view};

    ghost test = { λ start. revise_card_fault start.problem };

    ghost is_made_of = { λ start draft seen. state_view draft ≡ state_of start.problem seen };

    fn section(&self) -> Option<Section> {
        self.section
    }

    fn take(&mut self, card: Card<'_>) -> Result<(), CardStop<DeckFaultKind>> {
        self.take_card(card)
    }
}
