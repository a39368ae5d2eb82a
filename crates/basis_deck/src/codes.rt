// What the fields of a data card of a basis deck say.
ghost use Rattle.std.specs.Prelude.{◌≡◌, ◌++◌, not};
ghost use Rattle.card_definitions.specs.Words.{is_empty, named};
ghost use Rattle.lp_definitions.specs.LinearProgram.{IsVariable};
ghost use Rattle.basis_deck_definitions.specs.Placings.{code_words};
ghost use Rattle.basis_deck_definitions.specs.Reading.{has_limit_of};

use basis_deck_definitions::Code;
use deck_fields::{DataCard, is_blank};
use lp_model::{Lp, Status};

/// The code that a word names.
pub fn code_named(word: &[u8]) -> Option<Code>
    ensures { result ≡ named code_words word.now }
{
    match word {
        b"XU" => Some(Code::Exchanges(Status::Ul)),
        b"XL" => Some(Code::Exchanges(Status::Ll)),
        b"UL" => Some(Code::Stands(Status::Ul)),
        b"LL" => Some(Code::Stands(Status::Ll)),
        _ => None,
    }
}

/// Whether a variable has the limit at which this status stands.
pub fn has_limit(lp: &Lp, k: u32, at: Status) -> bool
    requires { IsVariable lp.now.matrix k }
    ensures { result ≡ has_limit_of lp.now (record { variable = k; status = at }) }
{
    match at {
        Status::Bs => true,
        Status::Ll => lp.lower_limit(k).is_some(),
        Status::Ul => lp.upper_limit(k).is_some(),
        Status::Fr => lp.lower_limit(k).is_none() && lp.upper_limit(k).is_none(),
    }
}

/// Whether one of the fields 4 to 6 isn't blank.
pub fn has_more_from_4(card: &DataCard<'_>) -> bool
    ensures { result ≡
        not (is_empty (card.now.value1.now ++ card.now.name3 ++ card.now.value2.now)) }
{
    !(is_blank(card.value1) && is_blank(card.name3.bytes()) && is_blank(card.value2))
}

/// Whether one of the fields 3 to 6 isn't blank.
pub fn has_more_from_3(card: &DataCard<'_>) -> bool
    ensures { result ≡ not (is_empty (card.now.name2 ++ card.now.value1.now ++ card.now.name3 ++
        card.now.value2.now)) }
{
    !is_blank(card.name2.bytes()) || has_more_from_4(card)
}
