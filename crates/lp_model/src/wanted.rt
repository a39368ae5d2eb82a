//! Which rates of a row are wanted.

ghost use Rattle.std.specs.Prelude.{◌≡◌, ◌<◌, ◌^◌, length};
ghost use Rattle.lp_definitions.specs.LinearProgram.{value_at};
ghost use Rattle.lp_model.specs.Wanted.{is_wanted, turned, IsLeastWanted};

use frac128::Frac;

/// The sign of a rate that is wanted at a variable: none, below 0, above 0, or either of the two.
#[derive(Clone, Copy, Debug, PartialEq, Eq)]
pub enum Wanted {
    Nothing,
    Below,
    Above,
    Apart,
}

impl Wanted {
    /// Whether the rate, or its opposite where `up` is false, is wanted.
    #[inline(always)]
    pub fn is_met(self, up: bool, rate: Frac) -> bool
        ensures { result ≡ is_wanted self (turned up rate) }
    {
        match self {
            Wanted::Nothing => false,
            Wanted::Below => turned(up, rate).sign() < 0,
            Wanted::Above => is_above(turned(up, rate)),
            Wanted::Apart => is_apart(turned(up, rate)),
        }
    }
}

/// The rate, or its opposite.
#[inline(always)]
fn turned(up: bool, rate: Frac) -> Frac
    ensures { result ≡ turned up rate }
{
    if up { rate } else { rate.neg() }
}

/// Whether the rate is above 0: its opposite is below.
#[inline(always)]
#[tactic(auto, using(crate::proofs::Opposites::opposite_below))]
fn is_above(rate: Frac) -> bool
    ensures { result ≡ is_wanted Wanted.Above rate }
{
    rate.neg().sign() < 0
}

/// Whether the rate is below or above 0.
#[inline(always)]
fn is_apart(rate: Frac) -> bool
    ensures { result ≡ is_wanted Wanted.Apart rate }
{
    rate.is_less(Frac::whole(0)) || Frac::whole(0).is_less(rate)
}

/// The least-numbered variable at which the rate, or its opposite where `up` is false, is wanted.
pub fn least_wanted(wanted: &[Wanted], up: bool, rates: &[Frac]) -> Option<u32>
    requires places { length rates.now ≡ length wanted.now }
    requires small { length wanted.now < 2 ^ 32 }
    ensures { IsLeastWanted wanted.now up (value_at rates.now) result }
{
    for k in 0..wanted.len() {
        if wanted[k].is_met(up, rates[k]) {
            return Some(k as u32 + 1);
        }
    }
    None
}
