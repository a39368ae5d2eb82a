// Blanks, fractions and words, as the listing shows them.
ghost use Rattle.std.specs.Prelude.{◌≡◌, ◌≤◌, ◌-◌, replicate};
ghost use Rattle.frac128.specs.Text.{fraction_text};
ghost use Rattle.listing_definitions.specs.Numbers.{digits, rational_text};
ghost use Rattle.listing_definitions.specs.Text.{at_text, mark_text, operation_text, sense_text, solver_text};

use arrayvec::ArrayString;
use frac128::{Frac, Op};
use itoa::Buffer;
use listing_definitions::{At, Mark, Solver};
use lp_definitions::Sense;

/// The text of a fraction: a sign, 39 digits, a slash and 39 digits at most.
pub type FractionText = ArrayString<80>;

/// The places of a name.
pub const NAME_PLACES: usize = 8;

/// The places of a variable's number.
pub const NUMBER_PLACES: usize = 5;

static BLANKS: [u8; 8] = [b' '; 8];

/// The digits of a number.
#[tactic(auto, using(listing_definitions::proofs::Decimals::decimal_is_digits))]
pub fn decimal(buffer: &mut Buffer, number: u32) -> &str
    ensures { result.now ≡ digits number }
{
    buffer.format(number)
}

// The text of a fraction's own crate.
fn written(value: Frac) -> FractionText
    ensures { result.bytes ≡ fraction_text value }
{
    let mut digits = Buffer::new();
    let mut text = FractionText::new();
    text.push_str(digits.format(value.num()));
    if value.den() != 1 {
        text.push_str("/");
        text.push_str(digits.format(value.den().unsigned_abs()));
    }
    text
}

/// The numerator, and after a slash the denominator where it isn't 1.
#[tactic(auto, using(listing_definitions::proofs::Decimals::fraction_is_rational))]
pub fn fraction(value: Frac) -> FractionText
    ensures { result.bytes ≡ rational_text value }
{
    written(value)
}

/// The blanks that fill up so many places, of which some are taken.
pub fn blanks(places: usize, taken: usize) -> &'static [u8]
    requires { places ≤ 8 }
    ensures { result.now ≡ replicate (places - taken) 32 }
{
    &BLANKS[..places.saturating_sub(taken)]
}

/// The word of where a variable stands.
pub fn at_word(at: At) -> &'static [u8]
    ensures { result.now ≡ at_text at }
{
    match at {
        At::Basic => b"BS",
        At::Outside => b"**",
        At::Equal => b"EQ",
        At::Lower => b"LL",
        At::Upper => b"UL",
        At::Free => b"FR",
    }
}

/// The word of a mark.
pub fn mark_word(mark: Mark) -> &'static [u8]
    ensures { result.now ≡ mark_text mark }
{
    match mark {
        Mark::Optimal => b"OPTIMAL",
        Mark::Infeasible => b"INFEASIBLE",
        Mark::Unbounded => b"UNBOUNDED",
    }
}

/// The word of an operation.
pub fn operation(op: Op) -> &'static [u8]
    ensures { result.now ≡ operation_text op }
{
    match op {
        Op::Add => b"ADD",
        Op::Sub => b"SUB",
        Op::Mul => b"MUL",
        Op::Div => b"DIV",
    }
}

/// The word of a sense.
pub fn sense_word(sense: Sense) -> &'static [u8]
    ensures { result.now ≡ sense_text sense }
{
    match sense {
        Sense::Min => b"MIN",
        Sense::Max => b"MAX",
    }
}

/// The word of a solving verb.
pub fn solver_word(solver: Solver) -> &'static [u8]
    ensures { result.now ≡ solver_text solver }
{
    match solver {
        Solver::Primal => b"PRIMAL",
        Solver::Dual => b"DUAL",
        Solver::Paraobj => b"PARAOBJ",
        Solver::Pararhs => b"PARARHS",
    }
}
