// The numbers in the fields of a data card.
ghost use Rattle.std.specs.Prelude.{◌≡◌, ◌++◌, ◌+◌, ◌-◌, ◌*◌, ◌^◌, ◌≤◌, ◌<◌, length, IsTrue, fold};
ghost use Rattle.std.specs.List.{take_while, prefix_len, list_all, position_or_len};
ghost use Rattle.card_definitions.specs.Words.{is_empty, without_leading};
ghost use Rattle.card_definitions.specs.Cards.{is_blank};
ghost use Rattle.card_definitions.specs.Numbers.{mantissa, exponent, whole_digits, after_whole_digits, fraction_digits, exponent_digits, formed_length};
ghost use Rattle.card_definitions.specs.Numbers.{has_exponent, lacks_digit, exponent_size, number_fault, number_of, value_of, digits_value, is_negative};
ghost use Rattle.card_definitions.specs.Numbers.{is_digit, is_sign, is_point, is_exponent_letter, after_one, trimmed, next_value};
ghost use Rattle.deck_fields.specs.Readings.{quotient_value};

use crate::blanks::{leading_blanks, without_leading_blanks};
use crate::decimal::Decimal;
use card_definitions::NumberFault;
use frac128::Frac;
use name_table::without_trailing_blanks;
use num_traits::checked_pow;

// How many decimal digits a text begins with.
fn leading_digits(text: &[u8]) -> usize
    ensures count { result ≡ prefix_len is_digit text.now }
    ensures bound { result ≤ length text.now }
{
    text.iter().take_while(|byte| byte.is_ascii_digit()).count()
}

// A text without a sign at its front.
fn after_sign(text: &[u8]) -> &[u8]
    ensures bound { length result.now ≤ length text.now }
    ensures value { result.now ≡ after_one is_sign text.now }
{
    match text.split_first() {
        Some((byte, rest)) if *byte == b'+' || *byte == b'-' => rest,
        _ => text,
    }
}

// A text without a point at its front.
fn after_point(text: &[u8]) -> &[u8]
    ensures bound { length result.now ≤ length text.now }
    ensures value { result.now ≡ after_one is_point text.now }
{
    match text.split_first() {
        Some((byte, rest)) if *byte == b'.' => rest,
        _ => text,
    }
}

// Where the first exponent letter stands, or the text's length.
fn exponent_place(text: &[u8]) -> usize
    ensures count { result ≡ position_or_len is_exponent_letter text.now }
    ensures bound { result ≤ length text.now }
{
    text.iter()
        .take_while(|byte| !matches!(**byte, b'E' | b'e' | b'D' | b'd'))
        .count()
}

// The number that these digits continue.
fn continued(value: u64, digits: &[u8]) -> u64
    requires digits { IsTrue (list_all is_digit digits.now) }
    requires fits { (value + 1) * 10 ^ length digits.now ≤ 10 ^ 12 }
    ensures value { result ≡ fold next_value value digits.now }
    ensures bound { result + 1 ≤ (value + 1) * 10 ^ length digits.now }
{
    let mut total = value;
    for digit in digits {
        total = 10 * total + (*digit - b'0') as u64;
    }
    total
}

// The decimal digits that a text begins with.
#[tactic(auto, using(crate::proofs::Digits::front_passes))]
fn digits_in_front(text: &[u8]) -> &[u8]
    ensures value { result.now ≡ take_while is_digit text.now }
    ensures digits { IsTrue (list_all is_digit result.now) }
    ensures bound { length result.now ≤ length text.now }
{
    &text[..leading_digits(text)]
}

// A text without the decimal digits at its front.
fn after_digits(text: &[u8]) -> &[u8]
    ensures bound { length (take_while is_digit text.now) + length result.now ≡ length text.now }
    ensures value { result.now ≡ without_leading is_digit text.now }
{
    &text[leading_digits(text)..]
}

// What stands before the exponent letter.
fn mantissa_of(text: &[u8]) -> &[u8]
    ensures value { result.now ≡ mantissa text.now }
    ensures bound { length result.now ≤ length text.now }
{
    &text[..exponent_place(text)]
}

// What stands after the exponent letter.
fn exponent_of(text: &[u8]) -> &[u8]
    ensures value { result.now ≡ exponent text.now }
    ensures bound { length result.now ≤ length text.now }
{
    text.get(exponent_place(text) + 1..).unwrap_or(&[])
}

// The digits before the point.
fn whole_digits_of(text: &[u8]) -> &[u8]
    ensures value { result.now ≡ whole_digits text.now }
    ensures digits { IsTrue (list_all is_digit result.now) }
{
    digits_in_front(after_sign(mantissa_of(text)))
}

// The mantissa from the point on.
fn after_whole_digits_of(text: &[u8]) -> &[u8]
    ensures bound { length (whole_digits text.now) + length result.now ≤ length text.now }
    ensures value { result.now ≡ after_whole_digits text.now }
{
    after_digits(after_sign(mantissa_of(text)))
}

// The digits after the point.
fn fraction_digits_of(text: &[u8]) -> &[u8]
    ensures value { result.now ≡ fraction_digits text.now }
    ensures bound { length (whole_digits text.now) + length result.now ≤ length text.now }
    ensures digits { IsTrue (list_all is_digit result.now) }
{
    digits_in_front(after_point(after_whole_digits_of(text)))
}

// The digits of the exponent.
fn exponent_digits_of(text: &[u8]) -> &[u8]
    ensures value { result.now ≡ exponent_digits text.now }
    ensures digits { IsTrue (list_all is_digit result.now) }
    ensures bound { length result.now ≤ length text.now }
{
    digits_in_front(after_sign(exponent_of(text)))
}

// How long the longest prefix is that has the form of a number.
fn formed_length_of(text: &[u8]) -> usize
    ensures value { result ≡ formed_length text.now }
    ensures bound { result ≤ length text.now }
{
    let mantissa_rest = after_digits(after_point(after_whole_digits_of(text)));
    if mantissa_rest.is_empty() {
        let exponent_rest = after_digits(after_sign(exponent_of(text)));
        text.len().saturating_sub(exponent_rest.len())
    } else {
        mantissa_of(text).len().saturating_sub(mantissa_rest.len())
    }
}

// Whether an exponent letter stands in a text.
fn has_letter(text: &[u8]) -> bool
    ensures { result ≡ has_exponent text.now }
{
    text.iter()
        .any(|byte| matches!(*byte, b'E' | b'e' | b'D' | b'd'))
}

// Whether both texts are empty.
fn are_empty(first: &[u8], second: &[u8]) -> bool
    ensures { result ≡ is_empty (first.now ++ second.now) }
{
    match first.first() {
        Some(_) => false,
        None => second.is_empty(),
    }
}

// Whether no digit stands before the exponent letter, or none after it.
fn has_no_digit(text: &[u8]) -> bool
    ensures { result ≡ lacks_digit text.now }
{
    let none_before = are_empty(whole_digits_of(text), fraction_digits_of(text));
    let none_after = are_empty(exponent_digits_of(text), &[]);
    none_before || (has_letter(text) && none_after)
}

// The exponent's magnitude.
#[tactic(auto, using(crate::proofs::Digits::few_digits_fit))]
fn exponent_size_of(text: &[u8]) -> u64
    requires { length text.now ≤ 12 }
    ensures { result ≡ exponent_size text.now }
{
    continued(0, exponent_digits_of(text))
}

// A field's text without surrounding blanks.
fn trimmed_text(field: &[u8]) -> &[u8]
    ensures value { result.now ≡ trimmed field.now }
    ensures bound { length result.now + prefix_len is_blank field.now ≤ length field.now }
{
    without_trailing_blanks(without_leading_blanks(field))
}

// The first fault of a field that is to hold a number.
#[tactic(auto, unfolding(card_definitions::specs::Numbers::number_fault))]
fn fault_of(field: &[u8]) -> Option<NumberFault>
    requires { length field.now ≤ 12 }
    ensures { result ≡ number_fault field.now }
{
    let text = trimmed_text(field);
    let formed = formed_length_of(text);
    if text.is_empty() {
        Some(NumberFault::Empty)
    } else if formed < text.len() {
        Some(NumberFault::BadCharacter((leading_blanks(field) + formed + 1) as u8))
    } else if has_no_digit(text) {
        Some(NumberFault::NoDigit)
    } else if exponent_size_of(text) > 18 {
        Some(NumberFault::ExponentRange)
    } else {
        None
    }
}

// Whether a text begins with a minus.
fn begins_with_minus(text: &[u8]) -> bool
    ensures { result ≡ is_negative text.now }
{
    match text.first() {
        Some(byte) => *byte == b'-',
        None => false,
    }
}

// The number that the digits round the point spell.
#[tactic(auto, using(crate::proofs::Digits::few_digits_fit, crate::proofs::Digits::two_runs_fit))]
fn digits_of(text: &[u8]) -> u64
    requires { length text.now ≤ 12 }
    ensures value { result ≡ digits_value (whole_digits text.now ++ fraction_digits text.now) }
    ensures bound { result < 10 ^ 12 }
{
    let whole = whole_digits_of(text);
    let fraction = fraction_digits_of(text);
    continued(continued(0, whole), fraction)
}

// Ten to a power.
#[tactic(auto, using(crate::proofs::Digits::small_power, crate::proofs::Digits::ten_pos))]
fn power_of_ten(exponent: u32) -> u128
    requires { exponent ≤ 18 }
    ensures value { result ≡ 10 ^ exponent }
    ensures bound { result ≤ 10 ^ 18 }
    ensures positive { 1 ≤ result }
{
    checked_pow(10u128, exponent as usize).unwrap_or(1)
}

// A number as a sign, a magnitude and a denominator, which needn't be in lowest terms.
#[derive(Clone, Copy)]
struct Quotient {
    is_negative: bool,
    size: u128,
    denominator: u128,
}

// The exact value of a text in which no fault was found, as a quotient.
#[tactic(auto, unfolding(card_definitions::specs::Numbers::value_of))]
fn quotient_of(text: &[u8]) -> Quotient
    requires short { length text.now ≤ 12 }
    requires exponent { exponent_size text.now ≤ 18 }
    ensures value { quotient_value result ≡ value_of text.now }
    ensures size { result.size < 10 ^ 30 }
    ensures positive { 1 ≤ result.denominator }
    ensures denominator { result.denominator ≤ 10 ^ 36 }
{
    let digits = digits_of(text) as u128;
    let power = power_of_ten(exponent_size_of(text) as u32);
    let scale = power_of_ten(fraction_digits_of(text).len() as u32);
    let is_negative = begins_with_minus(text);
    if begins_with_minus(exponent_of(text)) {
        Quotient {
            is_negative,
            size: digits,
            denominator: scale * power,
        }
    } else {
        Quotient {
            is_negative,
            size: digits * power,
            denominator: scale,
        }
    }
}

// The exact value of a text in which no fault was found.
fn value_in(text: &[u8]) -> Frac
    requires short { length text.now ≤ 12 }
    requires exponent { exponent_size text.now ≤ 18 }
    ensures { result ≡ value_of text.now }
{
    let quotient = quotient_of(text);
    let denominator = quotient.denominator as i128;
    if quotient.is_negative {
        Frac::new(-(quotient.size as i128), denominator)
    } else {
        Frac::new(quotient.size as i128, denominator)
    }
}

/// The number that a field holds, or the field's first fault. The place of a bad character counts from 1 in the field.
#[tactic(auto, unfolding(card_definitions::specs::Numbers::number_of), using(crate::proofs::Decimals::exponent_is_small, deck_definitions::proofs::CardTexts::text_is_decimal))]
pub fn number(text: &[u8]) -> Result<Decimal, NumberFault>
    requires { length text.now ≤ 12 }
    ensures { result ≡ number_of text.now }
{
    match fault_of(text) {
        Some(fault) => Err(fault),
        None => {
            let kept = trimmed_text(text);
            Ok(Decimal::new(kept, value_in(kept)))
        }
    }
}
