// The verb and the arguments of a statement.
ghost use Rattle.std.specs.Prelude.{◌≡◌, ◌≤◌, length};
ghost use Rattle.std.specs.List.{list_any};
ghost use Rattle.control_definitions.specs.Statements.{verb_word, after_parenthesis, first_argument, arguments_of, is_open_parenthesis};
ghost use Rattle.control_verbs.specs.Pieces.{arguments_view};

use crate::places::parenthesis_place;
use crate::quotes::{before_outside, place_outside};

/// What a statement has after its verb.
#[derive(Clone, Copy, Debug)]
pub enum Arguments<'a> {
    /// No parenthesis.
    Without,
    /// A parenthesis that isn't closed at the statement's end.
    Malformed,
    /// What stands between the parentheses.
    With(&'a [u8]),
}

/// The text up to the first parenthesis, or the whole statement.
pub fn verb_word(statement: &[u8]) -> &[u8]
    ensures { result.now ≡ verb_word statement.now }
{
    &statement[..parenthesis_place(statement)]
}

// What stands after the first parenthesis.
fn after_parenthesis(statement: &[u8]) -> &[u8]
    ensures { result.now ≡ after_parenthesis statement.now }
{
    statement
        .get(parenthesis_place(statement) + 1..)
        .unwrap_or(&[])
}

// Whether a statement has a parenthesis.
fn has_parenthesis(statement: &[u8]) -> bool
    ensures { result ≡ list_any is_open_parenthesis statement.now }
{
    statement.iter().any(|byte| *byte == b'(')
}

/// The arguments of a statement.
pub fn arguments_of(statement: &[u8]) -> Arguments<'_>
    ensures { arguments_view result ≡ arguments_of statement.now }
{
    if !has_parenthesis(statement) {
        return Arguments::Without;
    }
    match after_parenthesis(statement).strip_suffix(b")") {
        Some(text) => Arguments::With(text),
        None => Arguments::Malformed,
    }
}

/// The text of the first argument, also where the statement isn't well formed.
#[tactic(auto, using(crate::proofs::Outside::up_to_comma))]
pub fn first_argument(statement: &[u8]) -> &[u8]
    ensures { result.now ≡ first_argument statement.now }
{
    let text = after_parenthesis(statement);
    let comma = place_outside(text, b',');
    if comma < text.len() {
        &text[..comma]
    } else {
        before_outside(text, b')')
    }
}
