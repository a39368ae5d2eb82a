// The first of two faults.
ghost use Rattle.std.specs.Prelude.{◌≡◌, ◌∷◌, [], Some};
ghost use Rattle.card_definitions.specs.Words.{◌⟹◌, first_fault};

use deck_definitions::DeckFaultKind;

// The fault of a card that has this fault where an earlier test doesn't hold.
pub fn fault_after(is_earlier: bool, earlier: DeckFaultKind, fault: DeckFaultKind) -> DeckFaultKind
    ensures { Some result ≡ first_fault ((is_earlier ⟹ earlier) ∷ Some fault ∷ []) }
{
    if is_earlier {
        return earlier;
    }
    fault
}
