// Single arguments: titles, names, numbers and labels.
ghost use Rattle.std.specs.Prelude.{◌≡◌, ◌≤◌, false, IfSome};
ghost use Rattle.std.specs.List.{list_all};
ghost use Rattle.card_definitions.specs.Words.{is_empty};
ghost use Rattle.control_definitions.specs.Arguments.{title_argument, quoted_name, number_argument, steps_argument, limit_argument, steps_of, is_label};
ghost use Rattle.control_definitions.specs.Arguments.{is_label_byte, label_text, if_passes, is_name};

use crate::parts::quotation;
use crate::text::Text;
use control_definitions::MAX_STEPS;
use deck_fields::number;
use frac128::Frac;
use name_table::Name;

const NUMBER_BYTES: usize = 12;

const LABEL_BYTES: usize = 8;

/// A title in quotes.
pub fn title_in(argument: &[u8]) -> Option<Text>
    ensures { result ≡ title_argument argument.now }
{
    Text::of(quotation(argument)?)
}

// The name of a text, if it is one.
#[tactic(auto, using(crate::proofs::Names::named_text))]
fn name_of(text: &[u8]) -> Option<Name>
    ensures { result ≡ if_passes is_name text.now }
{
    Name::of(text)
}

/// A name in quotes.
pub fn name_in(argument: &[u8]) -> Option<Name>
    ensures { result ≡ quoted_name argument.now }
{
    name_of(quotation(argument)?)
}

/// The value of a number, which has at most 12 bytes.
pub fn number_in(argument: &[u8]) -> Option<Frac>
    ensures { result ≡ number_argument argument.now }
{
    if argument.len() > NUMBER_BYTES {
        return None;
    }
    let decimal = number(argument).ok()?;
    Some(decimal.value())
}

// The number of steps that a value allows: a whole one from 0 to 1,000,000.
#[tactic(auto, using(crate::proofs::Steps::steps_allowed))]
fn steps_in(value: Frac) -> Option<u32>
    ensures steps { result ≡ steps_of value.numerator value.denominator }
    ensures at_most { IfSome result (λ steps. steps ≤ MAX_STEPS) }
{
    if value.den() == 1 && value.num() >= 0 && value.num() <= MAX_STEPS as i128 {
        Some(value.num() as u32)
    } else {
        None
    }
}

// A number of steps, at most 1,000,000.
fn steps_argument(argument: &[u8]) -> Option<u32>
    ensures steps { result ≡ steps_argument argument.now }
    ensures at_most { IfSome result (λ steps. steps ≤ MAX_STEPS) }
{
    steps_in(number_in(argument)?)
}

/// A limit on steps: a number of them, at most 1,000,000, or none, which is said by the text 'NONE'.
pub fn limit_in(argument: &[u8]) -> Option<Option<u32>>
    ensures limit { result ≡ limit_argument argument.now }
    ensures at_most { IfSome result (λ limit. IfSome limit (λ steps. steps ≤ MAX_STEPS)) }
{
    if argument == b"'NONE'".as_slice() {
        return Some(None);
    }
    let steps = steps_argument(argument)?;
    Some(Some(steps))
}

// Whether a text has the bytes of labels alone.
fn has_label_bytes(text: &[u8]) -> bool
    ensures { result ≡ list_all is_label_byte text.now }
{
    text.iter()
        .all(|byte| byte.is_ascii_digit() || byte.is_ascii_uppercase())
}

/// Whether a text has the form of a label.
pub fn is_label(text: &[u8]) -> bool
    ensures { result ≡ is_label text.now }
{
    !text.is_empty() && text.len() <= LABEL_BYTES && has_label_bytes(text)
}

/// The label of a text that has the form of one.
#[tactic(auto, using(crate::proofs::Names::label_is_name, crate::proofs::Names::label_is_filled))]
pub fn label_in(text: &[u8]) -> Option<Name>
    ensures label { result ≡ label_text text.now }
    ensures filled { IfSome result (λ label. is_empty label ≡ false) }
{
    if is_label(text) { Name::of(text) } else { None }
}
