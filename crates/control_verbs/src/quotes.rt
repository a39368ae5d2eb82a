// Places in a text outside quotes.
ghost use Rattle.std.specs.Prelude.{◌≡◌, ◌==◌, ◌≤◌, length};
ghost use Rattle.std.specs.List.{position_or_len};
ghost use Rattle.control_definitions.specs.Statements.{before_outside, marked, outside};

// Where this byte first stands outside quotes, or the text's length.
pub fn place_outside(text: &[u8], wanted: u8) -> usize
    ensures place { result ≡ position_or_len (outside (λ byte. byte == wanted)) (marked text.now) }
    ensures bound { result ≤ length text.now }
{
    let mut inside = false;
    for (place, byte) in text.iter().enumerate() {
        if !inside && *byte == wanted {
            return place;
        }
        if *byte == b'\'' {
            inside = !inside;
        }
    }
    text.len()
}

// What stands before this byte outside quotes, or all.
pub fn before_outside(text: &[u8], wanted: u8) -> &[u8]
    ensures { result.now ≡ before_outside (λ byte. byte == wanted) text.now }
{
    &text[..place_outside(text, wanted)]
}
