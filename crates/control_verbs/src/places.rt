// Places in a text.
ghost use Rattle.std.specs.Prelude.{◌≡◌, ◌≤◌, length};
ghost use Rattle.std.specs.List.{position_or_len, prefix_len};
ghost use Rattle.card_definitions.specs.Words.{without_leading};
ghost use Rattle.card_definitions.specs.Cards.{is_blank};
ghost use Rattle.control_definitions.specs.Statements.{is_open_parenthesis};

// Where the first blank stands, or the text's length.
pub fn blank_place(text: &[u8]) -> usize
    ensures place { result ≡ position_or_len is_blank text.now }
    ensures bound { result ≤ length text.now }
{
    text.iter().take_while(|byte| **byte != b' ').count()
}

// Where the first opening parenthesis stands, or the text's length.
pub fn parenthesis_place(text: &[u8]) -> usize
    ensures place { result ≡ position_or_len is_open_parenthesis text.now }
    ensures bound { result ≤ length text.now }
{
    text.iter().take_while(|byte| **byte != b'(').count()
}

// How many blanks a text begins with.
fn leading_blanks(text: &[u8]) -> usize
    ensures count { result ≡ prefix_len is_blank text.now }
    ensures bound { result ≤ length text.now }
{
    text.iter().take_while(|byte| **byte == b' ').count()
}

// A text without the blanks at its front.
pub fn after_blanks(text: &[u8]) -> &[u8]
    ensures { result.now ≡ without_leading is_blank text.now }
{
    &text[leading_blanks(text)..]
}
