// The options of SETUP.
ghost use Rattle.std.specs.Prelude.{◌≡◌, ◌<◌, length, IfSome, option_map, option_and_then};
ghost use Rattle.control_definitions.specs.Statements.{split_outside, is_comma};
ghost use Rattle.control_definitions.specs.Arguments.{set_words, sense_choice, set_choice, quotation, choices, setup_arguments};
ghost use Rattle.control_definitions.specs.Arguments.{Direction as TheDirection};
ghost use Rattle.card_definitions.specs.Words.{named};
ghost use Rattle.control_verbs.specs.Pieces.{parts_after};
ghost use Rattle.control_verbs.specs.Chosen.{set_view, choice_view, first_choice, after_first_word, added, all_added, nothing_chosen, chosen_options};

use crate::given::name_in;
use crate::parts::{quotation, split_argument};
use crate::verb::SetupOptions;
use lp_definitions::Sense;
use name_table::Name;

// The kind of a set that SETUP may name.
#[derive(Clone, Copy)]
enum SetKind {
    Bound,
    Range,
}

// One choice of SETUP: of a bound set, of a range set, or of the sense.
#[derive(Clone, Copy)]
enum SetupArgument {
    BoundSet(Name),
    RangeSet(Name),
    Direction(Sense),
}

// What SETUP has chosen so far.
#[derive(Clone, Copy)]
struct Chosen {
    bound: Option<Name>,
    range: Option<Name>,
    sense: Option<Sense>,
}

// The sense of a word in quotes.
fn sense_of(word: &[u8]) -> Option<Sense>
    ensures { option_map TheDirection result ≡ sense_choice word.now }
{
    match quotation(word)? {
        b"MIN" => Some(Sense::Min),
        b"MAX" => Some(Sense::Max),
        _ => None,
    }
}

// The kind of set of a word in quotes.
fn set_of(word: &[u8]) -> Option<SetKind>
    ensures { option_map set_view result ≡ option_and_then (named set_words) (quotation word.now) }
{
    match quotation(word)? {
        b"BOUND" => Some(SetKind::Bound),
        b"RANGE" => Some(SetKind::Range),
        _ => None,
    }
}

// The choice that a word makes with the argument after it.
fn set_in(word: &[u8], argument: &[u8]) -> Option<SetupArgument>
    ensures { option_map choice_view result ≡ set_choice word.now argument.now }
{
    match set_of(word)? {
        SetKind::Bound => Some(SetupArgument::BoundSet(name_in(argument)?)),
        SetKind::Range => Some(SetupArgument::RangeSet(name_in(argument)?)),
    }
}

// The first choice of a text.
fn choice_in(text: &[u8]) -> Option<SetupArgument>
    ensures { option_map choice_view result ≡ first_choice (split_outside is_comma text.now) }
{
    let (word, after) = split_argument(text);
    if let Some(sense) = sense_of(word) {
        return Some(SetupArgument::Direction(sense));
    }
    let (argument, _) = split_argument(after?);
    set_in(word, argument)
}

// The text after the first choice, if there is any.
fn after_choice(text: &[u8]) -> Option<&[u8]>
    ensures parts { parts_after result ≡ after_first_word (split_outside is_comma text.now) }
    ensures shorter { IfSome result (λ rest. length rest.now < length text.now) }
{
    let (word, after) = split_argument(text);
    if sense_of(word).is_some() {
        return after;
    }
    let (_, rest) = split_argument(after?);
    rest
}

impl Chosen {
    // What is chosen with one more choice, unless that is made twice.
    fn with(self, choice: SetupArgument) -> Option<Chosen>
        ensures { result ≡ added self (choice_view choice) }
    {
        match choice {
            SetupArgument::BoundSet(name) if self.bound.is_none() => Some(Chosen {
                bound: Some(name),
                ..self
            }),
            SetupArgument::RangeSet(name) if self.range.is_none() => Some(Chosen {
                range: Some(name),
                ..self
            }),
            SetupArgument::Direction(sense) if self.sense.is_none() => Some(Chosen {
                sense: Some(sense),
                ..self
            }),
            _ => None,
        }
    }
}

// What the choices of a text choose, if none is made twice.
#[tactic(auto, using(crate::proofs::Choices::one_more, crate::proofs::Choices::one_too_many, crate::proofs::Choices::no_more))]
fn chosen_in(text: &[u8]) -> Option<Chosen>
    ensures { result ≡ option_and_then (all_added nothing_chosen)
        (choices (split_outside is_comma text.now)) }
{
    let mut chosen = Chosen {
        bound: None,
        range: None,
        sense: None,
    };
    let mut rest = Some(text);
    while let Some(choices) = rest {
        chosen = chosen.with(choice_in(choices)?)?;
        rest = after_choice(choices);
    }
    Some(chosen)
}

/// The options of SETUP that stand between parentheses.
#[tactic(auto, using(crate::proofs::Choices::setup_is))]
pub fn options_in(text: &[u8]) -> Option<SetupOptions>
    ensures { result ≡ setup_arguments (split_outside is_comma text.now) }
{
    let chosen = chosen_in(text)?;
    Some(SetupOptions {
        bound: chosen.bound,
        range: chosen.range,
        sense: chosen.sense.unwrap_or(Sense::Min),
    })
}
