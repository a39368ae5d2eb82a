// Blanks at the end of columns.
ghost use Rattle.std.specs.Prelude.{◌≡◌};
ghost use Rattle.card_definitions.specs.Cards.{is_blank};
ghost use Rattle.card_definitions.specs.Words.{without_trailing};

// The columns without the blanks at their end.
pub fn without_blanks(columns: &[u8]) -> &[u8]
    ensures { result.now ≡ without_trailing is_blank columns.now }
{
    let mut rest = columns;
    while let [front @ .., b' '] = rest {
        rest = front;
    }
    rest
}
