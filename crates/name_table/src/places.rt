// Texts in places, with blanks after them.
ghost use Rattle.std.specs.Prelude.{◌≡◌, ◌≤◌, length};
ghost use Rattle.std.specs.List.{suffix_len};
ghost use Rattle.card_definitions.specs.Words.{without_trailing};
ghost use Rattle.card_definitions.specs.Cards.{is_blank};
ghost use Rattle.card_definitions.specs.Words.{padded as the_padded};

/// The text with blanks after it.
#[tactic(auto, using(card_definitions::proofs::Places::padded_after))]
pub fn padded<const WIDTH: usize>(text: &[u8]) -> [u8; WIDTH]
    requires { length text.now ≤ WIDTH }
    ensures { result ≡ the_padded WIDTH text.now }
{
    let mut places = [b' '; WIDTH];
    places[..text.len()].copy_from_slice(text);
    places
}

/// How many blanks a text ends with.
pub fn trailing_blanks(text: &[u8]) -> usize
    ensures count { result ≡ suffix_len is_blank text.now }
    ensures bound { result ≤ length text.now }
{
    text.iter().rev().take_while(|byte| **byte == b' ').count()
}

/// A text without the blanks at its end.
pub fn without_trailing_blanks(text: &[u8]) -> &[u8]
    ensures { result.now ≡ without_trailing is_blank text.now }
{
    &text[..text.len() - trailing_blanks(text)]
}
