// What isn't read.
ghost use Rattle.std.specs.Prelude.{◌≡◌, if◌then◌else◌};
ghost use Rattle.listing_claims.specs.declared.claims.Stop.TheVariants as stops;

use listing_claims::Stop;

/// Why something isn't read: a number in it is too long, if it is there by its form; and else it isn't of its form.
pub fn stop_unread(has_form: bool) -> Stop
    ensures { result ≡ (if has_form then stops.Unchecked else stops.Wrong) }
{
    if has_form {
        Stop::Unchecked
    } else {
        Stop::Wrong
    }
}
