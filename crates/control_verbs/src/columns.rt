// The label and the statement of a control card.
ghost use Rattle.std.specs.Prelude.{◌≡◌, ◌≤◌, length};
ghost use Rattle.control_definitions.specs.Statements.{read_columns, label_of, statement_of, is_unclosed};

use crate::places::{after_blanks, blank_place};
use crate::quotes::before_outside;
use control_definitions::READ_COLUMNS;

// The columns of a card that are read.
fn read_columns(card: &[u8]) -> &[u8]
    ensures { result.now ≡ read_columns card.now }
{
    if card.len() < READ_COLUMNS {
        card
    } else {
        &card[..READ_COLUMNS]
    }
}

/// The label of a card, which is empty where column 1 is blank.
#[tactic(auto, unfolding(control_definitions::specs::Statements::label_of))]
pub fn label(card: &[u8]) -> &[u8]
    ensures label { result.now ≡ label_of card.now }
    ensures bound { length result.now ≤ length (read_columns card.now) }
{
    let columns = read_columns(card);
    &columns[..blank_place(columns)]
}

/// The statement of a card, which is empty where there is none.
#[tactic(auto, unfolding(control_definitions::specs::Statements::statement_of))]
pub fn statement(card: &[u8]) -> &[u8]
    ensures { result.now ≡ statement_of card.now }
{
    let (_, after) = read_columns(card).split_at(label(card).len());
    before_outside(after_blanks(after), b' ')
}

/// Whether a quote of a statement isn't closed.
pub fn has_open_quote(statement: &[u8]) -> bool
    ensures { result ≡ is_unclosed statement.now }
{
    statement.iter().filter(|byte| **byte == b'\'').count() % 2 == 1
}
