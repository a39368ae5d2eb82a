// The lines of a ray.
ghost use Rattle.std.specs.Prelude.{◌≡◌, ◌≤◌, ℕ, List, length, option_map, IfOk};
ghost use Rattle.std.specs.List.{prefix_len};
ghost use Rattle.lp_definitions.specs.LinearProgram.{IsVariable};
ghost use Rattle.card_definitions.specs.Cards.{is_blank};
ghost use Rattle.card_definitions.specs.Numbers.{is_digit};
ghost use Rattle.card_definitions.specs.Words.{without_leading};
ghost use Rattle.listing_tables.specs.Sheets.{IsSheet};
ghost use Rattle.walk_definitions.specs.Words.{left_after};
ghost use Rattle.walk_definitions.specs.Tables.{begins, begins_table_line, line_head};
ghost use Rattle.listing_words.specs.Read.{taken, sheet_view};
ghost use Rattle.listing_claims.specs.Numbers.{number_in};
ghost use Rattle.listing_readers.specs.Results.{IfRead};
ghost use Rattle.listing_readers.specs.Tables.{IsMultiplierRead, IsRayRead};

use crate::lines::take_head;
use crate::tables::{Shape, line};
use crate::unread::Unread;
use listing_claims::{By, Checks};
use listing_tables::Sheet;
use listing_words::{Cursor, Number};
use lp_model::NoMemory;
use std::alloc::Global;

// How many blanks a text begins with.
fn leading_blanks(bytes: &[u8]) -> usize
    ensures most { result ≤ length bytes.now }
    ensures count { result ≡ prefix_len is_blank bytes.now }
{
    bytes.iter().take_while(|byte| **byte == b' ').count()
}

// How many digits a text begins with.
fn leading_digits(bytes: &[u8]) -> usize
    ensures most { result ≤ length bytes.now }
    ensures count { result ≡ prefix_len is_digit bytes.now }
{
    bytes
        .iter()
        .take_while(|byte| byte.is_ascii_digit())
        .count()
}

// A text without the blanks that it begins with.
fn after_blanks(bytes: &[u8]) -> &[u8]
    ensures { result.now ≡ without_leading is_blank bytes.now }
{
    &bytes[leading_blanks(bytes)..]
}

// A text without the digits that it begins with.
fn after_digits(bytes: &[u8]) -> &[u8]
    ensures { result.now ≡ without_leading is_digit bytes.now }
{
    &bytes[leading_digits(bytes)..]
}

// Whether a digit stands first.
fn begins_with_digit(bytes: &[u8]) -> bool
    ensures { result ≡ begins is_digit bytes.now }
{
    match bytes.first() {
        Some(byte) => byte.is_ascii_digit(),
        None => false,
    }
}

// Whether a blank stands first.
fn begins_with_blank(bytes: &[u8]) -> bool
    ensures { result ≡ begins is_blank bytes.now }
{
    match bytes.first() {
        Some(byte) => *byte == b' ',
        None => false,
    }
}

/// Whether a text begins as a table line does: with blanks or none, at least one digit, and a blank.
pub fn begins_table_line(bytes: &[u8]) -> bool
    ensures { result ≡ begins_table_line bytes.now }
{
    let rest = after_blanks(bytes);
    begins_with_digit(rest) && begins_with_blank(after_digits(rest))
}

// Whether the line of variable `k` begins here.
fn begins_line(cursor: &Cursor<'_>, sheet: Sheet<'_>, k: u32) -> bool
    requires sheet { IsSheet sheet }
    requires variable { IsVariable sheet.lp.now.matrix k }
    ensures { (left : List ℕ) ×
        (left_after (line_head (sheet_view sheet.entry) k) cursor.now ≡ taken result left) }
{
    let mut ahead = Cursor::new(cursor.rest());
    take_head(&mut ahead, sheet, k)
}

// The multiplier of variable `k`, and 0 where it has no line here.
fn multiplier<'a, T: Checks>(
    alloc: Global,
    cursor: &mut Cursor<'a>,
    by: By,
    sheet: Sheet<'_>,
    k: u32,
) -> Result<Number<'a>, Unread>
    requires sheet { IsSheet sheet }
    requires variable { IsVariable sheet.lp.now.matrix k }
    ensures { IfRead result
        (IsMultiplierRead (number_in T.checker by)
        (sheet_view sheet.entry) k cursor.old cursor.new) }
{
    if !begins_line(cursor, sheet, k) {
        return Ok(Number::zero());
    }
    let numbers = line::<T>(alloc, cursor, by, sheet, Shape::Multiplier, k)?;
    if numbers.first.is_zero() {
        return Err(Unread::Absent);
    }
    Ok(numbers.first)
}

/// The multipliers of a ray, of which those that aren't 0 have lines.
pub fn ray<'a, T: Checks>(
    alloc: Global,
    cursor: &mut Cursor<'a>,
    by: By,
    sheet: Sheet<'_>,
) -> Result<Option<Vec<Number<'a>>>, NoMemory>
    requires { IsSheet sheet }
    ensures { IfOk result
        (λ found. IsRayRead (number_in T.checker by) (sheet_view sheet.entry) cursor.old cursor.new
        (option_map (λ ray. ray.items) found)) }
{
    let count = sheet.lp.number_of_variables();
    let mut ray = Vec::new(alloc);
    for k in 0..count {
        match multiplier::<T>(alloc, cursor, by, sheet, k + 1) {
            Ok(value) => ray.push(value).map_err(|_| NoMemory)?,
            Err(Unread::Absent) => return Ok(None),
            Err(Unread::NoMemory) => return Err(NoMemory),
        }
    }
    if begins_table_line(cursor.rest()) {
        return Ok(None);
    }
    Ok(Some(ray))
}
