// The blanks in texts.
ghost use Rattle.std.specs.Prelude.{◌≡◌, ◌+◌, ◌≤◌, length};
ghost use Rattle.std.specs.List.{prefix_len, position_or_len};
ghost use Rattle.card_definitions.specs.Words.{without_leading};
ghost use Rattle.card_definitions.specs.Cards.{is_blank};

// How many blanks a text begins with.
pub fn leading_blanks(text: &[u8]) -> usize
    ensures count { result ≡ prefix_len is_blank text.now }
    ensures bound { result ≤ length text.now }
{
    text.iter().take_while(|byte| **byte == b' ').count()
}

// A text without the blanks at its front.
pub fn without_leading_blanks(text: &[u8]) -> &[u8]
    ensures bound { length result.now + prefix_len is_blank text.now ≡ length text.now }
    ensures value { result.now ≡ without_leading is_blank text.now }
{
    &text[leading_blanks(text)..]
}

// Where the first blank stands, or the text's length.
pub fn first_blank(text: &[u8]) -> usize
    ensures length { result ≡ position_or_len is_blank text.now }
    ensures bound { result ≤ length text.now }
{
    text.iter().take_while(|byte| **byte != b' ').count()
}
