// The order of sections, and the cards of actions.
ghost use Rattle.std.specs.Prelude.{◌≡◌, ◌||◌, drop};
ghost use Rattle.card_definitions.specs.Words.{named};
ghost use Rattle.card_definitions.specs.Fields.{columns};
ghost use Rattle.deck_definitions.specs.declared.Style.TheVariants.{FixedFields, FreeFields};
ghost use Rattle.card_reader.specs.Card.{card_bytes};
ghost use Rattle.deck_definitions.specs.declared.Section.TheVariants.{Rows, Columns};
ghost use Rattle.deck_definitions.specs.Sections.{is_section};
ghost use Rattle.revise_definitions.specs.Actions.{action_words, action_on, anchor_on, deletes, is_action_card};
ghost use Rattle.revise_definitions.specs.Tests.{has_anchor, lacks_anchor, action_fault, inserts};
ghost use Rattle.revise_definitions.specs.Revision.{may_come_after};

use card_reader::Card;
use deck_definitions::Style;
use deck_fields::{first_word, free_words, has_blank, is_blank, name_in, rank_of, word_text};
use name_table::Name;
use named_problem::{DeckFaultKind, NamedProblem, Section};
use revise_definitions::Action;

/// Whether a section may come next.
pub fn comes_after(before: Section, section: Section) -> bool
    ensures { result ≡ may_come_after before section }
{
    rank_of(before) < rank_of(section)
}

// Whether a card of a fixed deck is an action card.
fn is_fixed_action(card: &[u8]) -> bool
    ensures { result ≡ is_action_card FixedFields card.now }
{
    has_blank(card, 1) && !has_blank(card, 2) && !has_blank(card, 3) && !has_blank(card, 4)
}

// Whether a card of a free deck is an action card.
fn is_free_action(card: Card<'_>) -> bool
    ensures { result ≡ is_action_card FreeFields (card_bytes card.entry) }
{
    let words = free_words(card);
    action_named(word_text(&words, 0)).is_some() && words.count <= 2
}

/// Whether a card of a deck of this style is an action card.
pub fn is_action(card: Card<'_>, style: Style) -> bool
    ensures { result ≡ is_action_card style (card_bytes card.entry) }
{
    match style {
        Style::FixedFields => is_fixed_action(card.bytes()),
        Style::FreeFields => is_free_action(card),
    }
}

// The action that a word names.
fn action_named(word: &[u8]) -> Option<Action>
    ensures { result ≡ named action_words word.now }
{
    match word {
        b"MODIFY" => Some(Action::Modify),
        b"DELETE" => Some(Action::Delete),
        b"BEFORE" => Some(Action::Before),
        b"AFTER" => Some(Action::After),
        _ => None,
    }
}

// A text without its first byte.
fn after_first_byte(text: &[u8]) -> &[u8]
    ensures { result.now ≡ drop 1 text.now }
{
    if text.is_empty() {
        return text;
    }
    &text[1..]
}

/// The action on an action card.
pub fn action_of(card: Card<'_>, style: Style) -> Option<Action>
    ensures { result ≡ action_on style (card_bytes card.entry) }
{
    match style {
        Style::FixedFields => action_named(first_word(after_first_byte(card.bytes()))),
        Style::FreeFields => action_named(word_text(&free_words(card), 0)),
    }
}

// The name on an action card of a fixed deck.
fn fixed_anchor(card: Card<'_>) -> Name
    ensures { result ≡ columns 15 22 (card_bytes card.entry) }
{
    name_in(card.field(15, 22))
}

// The name on an action card of a free deck, if it isn't longer than names are.
fn free_anchor(card: Card<'_>) -> Option<Name>
    ensures { result ≡ anchor_on FreeFields (card_bytes card.entry) }
{
    Name::of(word_text(&free_words(card), 1))
}

/// The name on an action card of a deck of this style.
pub fn anchor_of(card: Card<'_>, style: Style) -> Option<Name>
    ensures { result ≡ anchor_on style (card_bytes card.entry) }
{
    match style {
        Style::FixedFields => Some(fixed_anchor(card)),
        Style::FreeFields => free_anchor(card),
    }
}

/// Whether the data cards under an action name what is to be deleted.
pub fn is_deletion(action: Action) -> bool
    ensures { result ≡ deletes action }
{
    matches!(action, Action::Delete)
}

// Whether an action puts new things in.
fn puts_in(action: Action) -> bool
    ensures { result ≡ inserts action }
{
    match action {
        Action::Modify | Action::Delete => false,
        Action::Before | Action::After => true,
    }
}

// Whether new things may be put into a section.
fn takes_new(section: Section) -> bool
    ensures { result ≡ (is_section Rows section || is_section Columns section) }
{
    match section {
        Section::Rows | Section::Columns => true,
        _ => false,
    }
}

// Whether an anchor is in a section's list.
fn finds_anchor(seen: &NamedProblem, section: Section, anchor: &Name) -> bool
    ensures { result ≡ has_anchor seen.now section anchor.now }
{
    match section {
        Section::Rows => seen.rows.has(anchor),
        _ => seen.columns.has(anchor),
    }
}

// Whether a name isn't that of a thing that is there, or empty.
fn has_no_anchor(seen: &NamedProblem, section: Section, anchor: &Option<Name>) -> bool
    ensures { result ≡ lacks_anchor seen.now section anchor.now }
{
    match anchor {
        Some(name) => !is_blank(name.bytes()) && !finds_anchor(seen, section, name),
        None => true,
    }
}

/// The fault of an action card in a section.
pub fn action_fault_of(
    seen: &NamedProblem,
    section: Section,
    action: Option<Action>,
    anchor: &Option<Name>,
) -> Option<DeckFaultKind>
    ensures { result ≡ action_fault seen.now section action anchor.now }
{
    let Some(action) = action else {
        return Some(DeckFaultKind::UnknownAction);
    };
    if puts_in(action) && !takes_new(section) {
        return Some(DeckFaultKind::UnknownAction);
    }
    if puts_in(action) && has_no_anchor(seen, section, anchor) {
        return Some(DeckFaultKind::NoAnchor);
    }
    None
}
