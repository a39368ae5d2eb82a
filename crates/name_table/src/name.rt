// A name of a row, a column, a set or a problem.
ghost use Rattle.std.specs.Prelude.{◌≡◌, ◌↔◌, ◌≤◌, length, IsTrue, IsSome, IfSome};
ghost use Rattle.std.specs.List.{list_all, suffix_len};
ghost use Rattle.card_definitions.specs.Words.{without_trailing};
ghost use Rattle.card_definitions.specs.Cards.{is_blank, is_printable};
ghost use Rattle.problem_definitions.specs.Valid.{IsName};
ghost use Rattle.card_definitions.specs.Words.{padded};

use crate::places::{padded, trailing_blanks, without_trailing_blanks};
use std::hash::{Hash, Hasher};
use std::marker::Model;

const WIDTH: usize = 8;

/// A name of a row, a column, a set or a problem: at most 8 printable bytes, of which the last
/// isn't a blank. A name may be empty.
#[derive(Clone, Copy, Debug)]
pub struct Name {
    // The name with blanks after it.
    places: [u8; WIDTH],
}

impl Model for Name {
    ghost use Rattle.problem_definitions.specs.Names.{Name as Text};
    ghost use Rattle.card_definitions.specs.Words.{padded};
    ghost use Rattle.card_definitions.specs.Places.{text_in, ArePrintable};
    ghost use Rattle.card_definitions.proofs.Places.{padded-text_in};

    ghost Value = { Text };

    ghost view = { λ n. text_in n.places };

    ghost invariant = { λ n. ArePrintable n.places };

    ghost inverse = { λ name. record { places = padded 8 name } };

    ghost inverse_ok = { λ n h. λ i. record { places = padded-text_in 8 n.places h.eight i } };
}

impl Name {
    /// The name of these bytes, if they are one.
    #[tactic(auto, using(problem_definitions::proofs::NamePlaces::placed, problem_definitions::proofs::NamePlaces::name_in_places))]
    pub fn of(bytes: &[u8]) -> Option<Name>
        ensures is_name { IsSome result ↔ IsName bytes.now }
        ensures value { IfSome result (λ name. name ≡ bytes.now) }
    {
        if !is_name(bytes) {
            return None;
        }
        Some(Name {
            places: padded(bytes),
        })
    }

    /// The bytes of the name.
    #[tactic(auto, using(problem_definitions::proofs::NamePlaces::name_stands))]
    pub fn bytes(&self) -> &[u8]
        ensures bytes { result.now ≡ self.now }
        ensures is_name { IsName self.now }
    {
        without_trailing_blanks(&self.places)
    }
}

impl PartialEq for Name {
    ghost use Rattle.std.specs.Prelude.{bytes_eq};
    ghost use Rattle.std.specs.Cmp.Rules.{comparing};
    ghost use Rattle.std.proofs.Common.{rules};

    ghost eq = { bytes_eq };

    ghost laws = { Prim.search (comparing, rules) };

    fn eq(&self, other: &Name) -> bool {
        self.places == other.places
    }
}

impl Eq for Name {
    ghost use Rattle.std.specs.Cmp.Rules.{comparing};
    ghost use Rattle.std.proofs.Common.{rules};

    ghost laws = { Prim.search (comparing, rules) };
}

impl Hash for Name {
    ghost use Rattle.std.specs.Hash as fed;

    ghost hash_input = { λ name. fed.slice fed.u8 (padded 8 name) };

    ghost use Rattle.problem_definitions.proofs.NamePlaces.{places_alike};

    ghost respects_eq = { places_alike };

    fn hash<H: Hasher>(&self, state: &mut H) {
        self.places.hash(state);
    }
}

// Whether a text has printable bytes alone.
fn is_printable_text(text: &[u8]) -> bool
    ensures { result ≡ list_all is_printable text.now }
{
    text.iter().all(|byte| 32 <= *byte && *byte <= 126)
}

// Whether the bytes are a name.
#[tactic(auto, using(card_definitions::proofs::Places::untrimmed))]
fn is_name(bytes: &[u8]) -> bool
    ensures { IsTrue result ↔ IsName bytes.now }
{
    bytes.len() <= WIDTH && is_printable_text(bytes) && trailing_blanks(bytes) == 0
}
