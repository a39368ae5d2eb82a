// Arguments one by one, and texts in quotes.
ghost use Rattle.std.specs.Prelude.{◌≡◌, ◌<◌, ◌∷◌, length, IfSome};
ghost use Rattle.std.specs.Option.{option_copied};
ghost use Rattle.std.specs.List.{list_any};
ghost use Rattle.control_definitions.specs.Statements.{split_outside, is_comma, is_quote};
ghost use Rattle.control_definitions.specs.Arguments.{quotation};
ghost use Rattle.control_verbs.specs.Pieces.{parts_after, only_part, two_parts, pair_view, after_quote};

use crate::quotes::place_outside;

/// The first argument of a text, and the text of those after it, if there are any.
#[tactic(auto, using(crate::proofs::Outside::only_one_part))]
pub fn split_argument(text: &[u8]) -> (&[u8], Option<&[u8]>)
    ensures parts { split_outside is_comma text.now ≡ result.0.now ∷ parts_after result.1 }
    ensures shorter { IfSome result.1 (λ rest. length rest.now < length text.now) }
{
    let comma = place_outside(text, b',');
    if comma < text.len() {
        (&text[..comma], Some(&text[comma + 1..]))
    } else {
        (text, None)
    }
}

/// The argument of a text that has one.
#[tactic(auto, using(crate::proofs::Outside::not_only))]
pub fn one_argument(text: &[u8]) -> Option<&[u8]>
    ensures { option_copied result ≡ only_part (split_outside is_comma text.now) }
{
    let (first, rest) = split_argument(text);
    match rest {
        None => Some(first),
        Some(_) => None,
    }
}

/// The arguments of a text that has two.
pub fn two_arguments(text: &[u8]) -> Option<(&[u8], &[u8])>
    ensures { pair_view result ≡ two_parts (split_outside is_comma text.now) }
{
    let (first, rest) = split_argument(text);
    let second = one_argument(rest?)?;
    Some((first, second))
}

// Whether a quote stands in a text.
fn has_quote(text: &[u8]) -> bool
    ensures { result ≡ list_any is_quote text.now }
{
    text.iter().any(|byte| *byte == b'\'')
}

// A text without the quote at its front.
fn after_quote(text: &[u8]) -> Option<&[u8]>
    ensures { option_copied result ≡ after_quote text.now }
{
    match text.split_first() {
        Some((b'\'', rest)) => Some(rest),
        _ => None,
    }
}

/// What stands between two quotes, where no other quote does.
#[tactic(auto, using(crate::proofs::Quoted::quotation_is))]
pub fn quotation(argument: &[u8]) -> Option<&[u8]>
    ensures { option_copied result ≡ quotation argument.now }
{
    let inner = after_quote(argument)?.strip_suffix(b"'")?;
    if has_quote(inner) { None } else { Some(inner) }
}
