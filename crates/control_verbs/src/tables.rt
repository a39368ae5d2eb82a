// The words of the table of verbs.
ghost use Rattle.std.specs.Prelude.{◌≡◌, option_map, IfSome};
ghost use Rattle.card_definitions.specs.Words.{named};
ghost use Rattle.control_definitions.specs.Verbs.{cell_words, demand_words, verb_words};
ghost use Rattle.control_verbs.specs.Views.{viewed, IsLawful, IsLawfulWord, cell_view, word_view, alone_view, alone_words, argument_words};

use crate::verb::Verb;
use control_definitions::{Demand, NameCell, NumberCell};
use deck_fields::is_word;
use name_table::Name;

/// What a cell holds: a name, a number, or the limit on steps.
#[derive(Clone, Copy, Debug)]
pub enum Cell {
    OfName(NameCell),
    OfNumber(NumberCell),
    OfLimit,
}

/// What a verb's word asks for: no parentheses at all, or the arguments of one verb.
#[derive(Debug, Drop)]
pub enum VerbWord {
    Alone(Verb<Name>),
    TakesTitle,
    TakesCell,
    TakesDemand,
    TakesLabel,
    TakesOptions,
    EndsProgram,
}

/// The demand of this name.
pub fn demand_of(word: &[u8]) -> Option<Demand>
    ensures { result ≡ named demand_words word.now }
{
    match word {
        b"XDONFS" => Some(Demand::Xdonfs),
        b"XDOUNB" => Some(Demand::Xdounb),
        _ => None,
    }
}

/// The cell of this name.
pub fn cell_of(word: &[u8]) -> Option<Cell>
    ensures { option_map cell_view result ≡ named cell_words word.now }
{
    match word {
        b"XDATA" => Some(Cell::OfName(NameCell::Xdata)),
        b"XPBNAME" => Some(Cell::OfName(NameCell::Xpbname)),
        b"XOLDNAME" => Some(Cell::OfName(NameCell::Xoldname)),
        b"XOBJ" => Some(Cell::OfName(NameCell::Xobj)),
        b"XRHS" => Some(Cell::OfName(NameCell::Xrhs)),
        b"XCHROW" => Some(Cell::OfName(NameCell::Xchrow)),
        b"XCHCOL" => Some(Cell::OfName(NameCell::Xchcol)),
        b"XPARAM" => Some(Cell::OfNumber(NumberCell::Xparam)),
        b"XPARMAX" => Some(Cell::OfNumber(NumberCell::Xparmax)),
        b"XITERLIM" => Some(Cell::OfLimit),
        _ => None,
    }
}

// The verb of this word, where it is one that stands alone.
fn verb_alone(word: &[u8]) -> Option<Verb<Name>>
    ensures word { option_map alone_view result ≡ named alone_words word.now }
    ensures lawful { IfSome result (λ verb. IsLawful (viewed verb)) }
{
    if is_word(b"INITIALZ", word) {
        Some(Verb::Initialz)
    } else if is_word(b"CONVERT", word) {
        Some(Verb::Convert)
    } else if is_word(b"PRIMAL", word) {
        Some(Verb::Primal)
    } else if is_word(b"DUAL", word) {
        Some(Verb::Dual)
    } else if is_word(b"REVISE", word) {
        Some(Verb::Revise)
    } else if is_word(b"RANGE", word) {
        Some(Verb::Ranging)
    } else if is_word(b"PARAOBJ", word) {
        Some(Verb::Paraobj)
    } else if is_word(b"PARARHS", word) {
        Some(Verb::Pararhs)
    } else if is_word(b"SOLUTION", word) {
        Some(Verb::Solution)
    } else if is_word(b"BCDOUT", word) {
        Some(Verb::Bcdout)
    } else if is_word(b"PUNCH", word) {
        Some(Verb::Punch)
    } else if is_word(b"INSERT", word) {
        Some(Verb::Insert)
    } else if is_word(b"EXIT", word) {
        Some(Verb::Exit)
    } else {
        None
    }
}

// What the word of a verb with arguments asks for, and PEND.
fn argument_word_of(word: &[u8]) -> Option<VerbWord>
    ensures word { option_map word_view result ≡ named argument_words word.now }
    ensures lawful { IfSome result (λ word. IsLawfulWord (word_view word)) }
{
    if is_word(b"TITLE", word) {
        Some(VerbWord::TakesTitle)
    } else if is_word(b"MOVE", word) {
        Some(VerbWord::TakesCell)
    } else if is_word(b"MVADR", word) {
        Some(VerbWord::TakesDemand)
    } else if is_word(b"GOTO", word) {
        Some(VerbWord::TakesLabel)
    } else if is_word(b"SETUP", word) {
        Some(VerbWord::TakesOptions)
    } else if is_word(b"PEND", word) {
        Some(VerbWord::EndsProgram)
    } else {
        None
    }
}

/// What the word of a verb asks for.
#[tactic(auto, using(crate::proofs::WordTests::words_in_two_tables))]
pub fn verb_word_of(word: &[u8]) -> Option<VerbWord>
    ensures word { option_map word_view result ≡ named verb_words word.now }
    ensures lawful { IfSome result (λ word. IsLawfulWord (word_view word)) }
{
    match verb_alone(word) {
        Some(verb) => Some(VerbWord::Alone(verb)),
        None => argument_word_of(word),
    }
}
