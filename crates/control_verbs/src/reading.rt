// The verb that a card says, with its arguments.
ghost use Rattle.std.specs.Prelude.{◌≡◌, option_map, IfSome};
ghost use Rattle.control_definitions.specs.Statements.{With as TheParts, Without as NoParts, split_outside, is_comma};
ghost use Rattle.control_definitions.specs.Verbs as verbs;
ghost use Rattle.control_verbs.specs.Pieces.{arguments_view};
ghost use Rattle.control_verbs.specs.Views.{viewed, IsLawful, IsLawfulWord, cell_view, word_view};

use crate::columns::statement;
use crate::given::{label_in, limit_in, name_in, number_in, title_in};
use crate::options::options_in;
use crate::parts::{one_argument, two_arguments};
use crate::tables::{Cell, VerbWord, cell_of, demand_of, verb_word_of};
use crate::verb::{SetupOptions, Verb};
use crate::words::{Arguments, arguments_of, verb_word};
use lp_definitions::Sense;
use name_table::Name;

// MOVE of a cell to an argument of its kind.
fn moved(cell: Cell, argument: &[u8]) -> Option<Verb<Name>>
    ensures verb { option_map viewed result ≡ verbs.moved (cell_view cell) argument.now }
    ensures lawful { IfSome result (λ verb. IsLawful (viewed verb)) }
{
    match cell {
        Cell::OfName(cell) => Some(Verb::MoveName(cell, name_in(argument)?)),
        Cell::OfNumber(cell) => Some(Verb::MoveNumber(cell, number_in(argument)?)),
        Cell::OfLimit => Some(Verb::MoveLimit(limit_in(argument)?)),
    }
}

// SETUP without parentheses: no set, and the least objective.
fn plain_setup() -> Verb<Name>
    ensures verb { Some (viewed result) ≡ verbs.verb_with verbs.TakesOptions NoParts }
    ensures lawful { IsLawful (viewed result) }
{
    Verb::Setup(SetupOptions {
        bound: None,
        range: None,
        sense: Sense::Min,
    })
}

// The verb of a word with the arguments between its parentheses.
#[tactic(auto, using(crate::proofs::Forms::of_title, crate::proofs::Forms::of_cell, crate::proofs::Forms::of_demand, crate::proofs::Forms::of_label))]
fn verb_with(word: VerbWord, text: &[u8]) -> Option<Verb<Name>>
    ensures verb { option_map viewed result ≡ verbs.verb_with (word_view word)
        (TheParts (split_outside is_comma text.now)) }
    ensures lawful { IfSome result (λ verb. IsLawful (viewed verb)) }
{
    match word {
        VerbWord::TakesTitle => Some(Verb::Title(title_in(one_argument(text)?)?)),
        VerbWord::TakesCell => {
            let (cell, argument) = two_arguments(text)?;
            moved(cell_of(cell)?, argument)
        }
        VerbWord::TakesDemand => {
            let (demand, label) = two_arguments(text)?;
            let demand = demand_of(demand)?;
            Some(Verb::Mvadr(demand, label_in(label)?))
        }
        VerbWord::TakesLabel => Some(Verb::Goto(label_in(one_argument(text)?)?)),
        VerbWord::TakesOptions => Some(Verb::Setup(options_in(text)?)),
        VerbWord::Alone(_) | VerbWord::EndsProgram => None,
    }
}

// The verb of a word without parentheses.
fn verb_without(word: VerbWord) -> Option<Verb<Name>>
    requires { IsLawfulWord (word_view word) }
    ensures verb { option_map viewed result ≡ verbs.verb_with (word_view word) NoParts }
    ensures lawful { IfSome result (λ verb. IsLawful (viewed verb)) }
{
    match word {
        VerbWord::Alone(verb) => Some(verb),
        VerbWord::TakesOptions => Some(plain_setup()),
        _ => None,
    }
}

/// The verb of a card with its arguments, where these have the table's form. PEND has none.
#[tactic(auto, unfolding(control_definitions::specs::Verbs::verb_of), using(crate::proofs::Forms::of_no_form))]
pub fn verb_of(card: &[u8]) -> Option<Verb<Name>>
    ensures verb { option_map viewed result ≡ verbs.verb_of card.now }
    ensures lawful { IfSome result (λ verb. IsLawful (viewed verb)) }
{
    let statement = statement(card);
    let word = verb_word_of(verb_word(statement))?;
    match arguments_of(statement) {
        Arguments::Without => verb_without(word),
        Arguments::Malformed => None,
        Arguments::With(text) => verb_with(word, text),
    }
}
