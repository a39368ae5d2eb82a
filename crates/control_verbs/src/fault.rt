// The fault of a control card.
ghost use Rattle.std.specs.Prelude.{◌≡◌, ◌&&◌, false, List, length, codes, is_none, not};
ghost use Rattle.card_definitions.specs.Words.{named};
ghost use Rattle.card_definitions.specs.Cards.{Card};
ghost use Rattle.control_definitions.specs.Statements.{statement_of, verb_word, arguments_of, With, split_outside, is_comma};
ghost use Rattle.control_definitions.specs.Verbs.{cell_words, demand_words, verb_words, verb_of};
ghost use Rattle.control_definitions.specs.Compiled.{has_bad_label, has_label_twice, has_verb, lacks_word, is_program, is_program_argument, is_pend};
ghost use Rattle.control_definitions.specs.Compiled.{is_lawful_pend, head_fault, control_card_fault};

use crate::columns::{has_open_quote, label, statement};
use crate::given::is_label;
use crate::parts::{one_argument, quotation};
use crate::reading::verb_of;
use crate::tables::{cell_of, demand_of, verb_word_of};
use crate::words::{Arguments, arguments_of, first_argument, verb_word};
use control_definitions::{ControlFaultKind, MAX_STATEMENTS};

// Whether a card has a label that isn't of a label's form.
fn has_bad_label(card: &[u8]) -> bool
    ensures { result ≡ has_bad_label card.now }
{
    let label = label(card);
    !label.is_empty() && !is_label(label)
}

// Whether a card's verb is this word.
fn has_verb(card: &[u8], word: &[u8]) -> bool
    ensures { result ≡ has_verb word.now card.now }
{
    verb_word(statement(card)) == word
}

// Whether a card's verb is unknown.
fn has_unknown_verb(card: &[u8]) -> bool
    ensures { result ≡ is_none (named verb_words (verb_word (statement_of card.now))) }
{
    verb_word_of(verb_word(statement(card))).is_none()
}

// Whether MOVE begins with a word that is no cell.
fn lacks_cell(card: &[u8]) -> bool
    ensures { result ≡ lacks_word (codes "MOVE") cell_words card.now }
{
    has_verb(card, b"MOVE") && cell_of(first_argument(statement(card))).is_none()
}

// Whether MVADR begins with a word that is no demand.
fn lacks_demand(card: &[u8]) -> bool
    ensures { result ≡ lacks_word (codes "MVADR") demand_words card.now }
{
    has_verb(card, b"MVADR") && demand_of(first_argument(statement(card))).is_none()
}

/// Whether the card ends a program.
pub fn is_pend(card: &[u8]) -> bool
    ensures { result ≡ is_pend card.now }
{
    has_verb(card, b"PEND")
}

// Whether the statement of a card is PEND, without arguments.
fn is_lawful_pend(card: &[u8]) -> bool
    ensures { result ≡ is_lawful_pend card.now }
{
    statement(card) == b"PEND".as_slice()
}

// Whether a card's arguments have not the form of its verb.
fn has_bad_argument(card: &[u8]) -> bool
    ensures { result ≡ (not (is_lawful_pend card.now) && is_none (verb_of card.now)) }
{
    !is_lawful_pend(card) && verb_of(card).is_none()
}

// Whether PROGRAM stands alone, or with one text in quotes.
fn has_program_argument(card: &[u8]) -> bool
    ensures { result ≡ is_program_argument (arguments_of (statement_of card.now)) }
{
    match arguments_of(statement(card)) {
        Arguments::Without => true,
        Arguments::Malformed => false,
        Arguments::With(text) => is_one_quotation(text),
    }
}

// Whether the arguments of a text are one text in quotes.
#[tactic(auto, using(crate::proofs::Forms::of_program))]
fn is_one_quotation(text: &[u8]) -> bool
    ensures { result ≡ is_program_argument (With (split_outside is_comma text.now)) }
{
    match one_argument(text) {
        Some(argument) => quotation(argument).is_some(),
        None => false,
    }
}

// Whether a card is PROGRAM in its lawful form.
fn is_program(card: &[u8]) -> bool
    ensures { result ≡ is_program card.now }
{
    has_verb(card, b"PROGRAM") && has_program_argument(card)
}

/// The fault of a job's first card that isn't skipped.
pub fn head_fault(card: &[u8]) -> Option<ControlFaultKind>
    ensures { result ≡ head_fault card.now }
{
    if has_bad_label(card) {
        Some(ControlFaultKind::BadLabel)
    } else if !is_program(card) {
        Some(ControlFaultKind::NoProgram)
    } else {
        None
    }
}

/// The fault of a card after PROGRAM. Whether a card before it has its label, and how many cards of the program stand before
/// it, is for the caller to say.
#[tactic(auto, unfolding(control_definitions::specs::Compiled::control_card_fault))]
pub fn card_fault(card: &[u8], is_label_twice: bool, before: usize) -> Option<ControlFaultKind>
    ensures { (cards : List Card) →
        (has_bad_label card.now ≡ false → is_label_twice ≡ has_label_twice cards card.now) → before
        ≡ length cards → result ≡ control_card_fault cards card.now }
{
    if has_bad_label(card) {
        Some(ControlFaultKind::BadLabel)
    } else if is_label_twice {
        Some(ControlFaultKind::LabelTwice)
    } else if has_open_quote(statement(card)) {
        Some(ControlFaultKind::Unclosed)
    } else if has_unknown_verb(card) {
        Some(ControlFaultKind::UnknownVerb)
    } else if lacks_cell(card) {
        Some(ControlFaultKind::UnknownCell)
    } else if lacks_demand(card) {
        Some(ControlFaultKind::UnknownDemand)
    } else if has_bad_argument(card) {
        Some(ControlFaultKind::BadArgument)
    } else if !is_pend(card) && before > MAX_STATEMENTS {
        Some(ControlFaultKind::TooManyStatements)
    } else {
        None
    }
}
