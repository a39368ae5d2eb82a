// The parts of table lines, and the words of other lines.
ghost use Rattle.std.specs.Prelude.{◌≡◌, ◌++◌, codes, Some, None, option_map, bytes_eq, if◌then◌else◌};
ghost use Rattle.std.specs.List.{find};
ghost use Rattle.std.specs.Option.{option_copied};
ghost use Rattle.lp_definitions.specs.LinearProgram.{IsVariable};
ghost use Rattle.card_definitions.specs.Words.{named};
ghost use Rattle.listing_definitions.specs.Report.{limit_value, Code};
ghost use Rattle.listing_definitions.specs.Report as reports;
ghost use Rattle.listing_definitions.specs.Text.{number5, name8, at_text, operation_text};
ghost use Rattle.listing_tables.specs.Sheets.{IsSheet};
ghost use Rattle.walk_definitions.specs.Words.{left_after};
ghost use Rattle.walk_definitions.specs.Forms.{all_operations};
ghost use Rattle.walk_definitions.specs.Tables.{all_codes, AnyNumber, slot_in, line_head};
ghost use Rattle.listing_words.specs.Read.{taken, sheet_view};
ghost use Rattle.listing_claims.specs.Numbers.{number_in};
ghost use Rattle.listing_readers.specs.Results.{IfRead};
ghost use Rattle.listing_readers.specs.Lines.{code_in, known_in};

use crate::unread::Unread;
use frac128::{Frac, Op};
use itoa::Buffer;
use listing_claims::{By, Checks, number_by};
use listing_definitions::At;
use listing_tables::{
    NAME_PLACES, NUMBER_PLACES, Sheet, at_word, blanks, decimal, fraction, name_of, operation,
};
use listing_words::{Cursor, Number};
use name_table::Name;
use std::alloc::Global;

// Takes two texts, one after the other.
#[tactic(auto, using(walk_definitions::proofs::Texts::left_after_both))]
fn take_both(cursor: &mut Cursor<'_>, first: &[u8], second: &[u8]) -> bool
    ensures { left_after (first.now ++ second.now) cursor.old ≡ taken result cursor.new }
{
    cursor.take(first) && cursor.take(second)
}

// Takes a number at the right of its places.
fn take_number(cursor: &mut Cursor<'_>, number: u32) -> bool
    ensures { left_after (number5 number) cursor.old ≡ taken result cursor.new }
{
    let mut buffer = Buffer::new();
    let digits = decimal(&mut buffer, number).as_bytes();
    take_both(cursor, blanks(NUMBER_PLACES, digits.len()), digits)
}

/// Takes a name at the left of its places.
pub fn take_name(cursor: &mut Cursor<'_>, name: Name) -> bool
    ensures { left_after (name8 name) cursor.old ≡ taken result cursor.new }
{
    let letters = name.bytes();
    take_both(cursor, letters, blanks(NAME_PLACES, letters.len()))
}

// Takes a name after a blank.
#[tactic(auto, using(walk_definitions::proofs::Texts::left_after_both))]
fn take_name_after_blank(cursor: &mut Cursor<'_>, name: Name) -> bool
    ensures { left_after (codes " " ++ name8 name) cursor.old ≡ taken result cursor.new }
{
    cursor.take(b" ") && take_name(cursor, name)
}

/// Takes the number and the name of variable `k`.
#[tactic(auto, using(walk_definitions::proofs::Texts::left_after_both))]
pub fn take_head(cursor: &mut Cursor<'_>, sheet: Sheet<'_>, k: u32) -> bool
    requires sheet { IsSheet sheet }
    requires variable { IsVariable sheet.lp.now.matrix k }
    ensures { left_after (line_head (sheet_view sheet.entry) k) cursor.old ≡
        taken result cursor.new }
{
    take_number(cursor, k) && take_name_after_blank(cursor, name_of(sheet, k))
}

// Whether a word is this text.
fn is_word(text: &[u8], word: &[u8]) -> bool
    ensures { result ≡ bytes_eq text.now word.now }
{
    text == word
}

// Where a variable may stand.
const CODES: [At; 6] = [
    At::Basic,
    At::Outside,
    At::Equal,
    At::Lower,
    At::Upper,
    At::Free,
];

const OPERATIONS: [Op; 4] = [Op::Add, Op::Sub, Op::Mul, Op::Div];

// The first of these codes whose word this is.
fn code_among<'a>(codes: &'a [At], word: &[u8]) -> Option<&'a At>
    ensures { option_copied result ≡ find (λ at. bytes_eq (at_text at) word.now) codes.now }
{
    codes.iter().find(|at| is_word(at_word(**at), word))
}

// Where a variable stands, as a word says it.
fn code_of(word: &[u8]) -> Option<At>
    ensures { result ≡ named all_codes word.now }
{
    code_among(&CODES, word).copied()
}

// The first of these operations whose word this is.
fn operation_among<'a>(operations: &'a [Op], word: &[u8]) -> Option<&'a Op>
    ensures { option_copied result ≡
        find (λ op. bytes_eq (operation_text op) word.now) operations.now }
{
    operations.iter().find(|op| is_word(operation(**op), word))
}

/// The operation that a word says.
pub fn operation_of(word: &[u8]) -> Option<Op>
    ensures { result ≡ named all_operations word.now }
{
    operation_among(&OPERATIONS, word).copied()
}

/// Where a variable stands, after a blank.
pub fn code(cursor: &mut Cursor<'_>) -> Result<At, Unread>
    ensures { IfRead result
        (λ at. code_in cursor.old ≡ option_map (λ at. (Code at, cursor.new)) at) }
{
    if !cursor.take(b" ") {
        return Err(Unread::Absent);
    }
    code_of(cursor.word()).ok_or(Unread::Absent)
}

/// A number after a blank.
pub fn number<'a, T: Checks>(
    alloc: Global,
    cursor: &mut Cursor<'a>,
    by: By,
) -> Result<Number<'a>, Unread>
    ensures { IfRead result
        (λ x. slot_in (number_in T.checker by) AnyNumber cursor.old ≡
        option_map (λ x. (reports.Number x, cursor.new)) x) }
{
    if !cursor.take(b" ") {
        return Err(Unread::Absent);
    }
    number_by::<T>(alloc, by, cursor.word())
        .map_err(|_| Unread::NoMemory)?
        .ok_or(Unread::Absent)
}

// This number after a blank.
fn known_number(cursor: &mut Cursor<'_>, value: Frac) -> bool
    ensures { known_in (reports.Number value) cursor.old
        ≡ (if result then Some (reports.Number value, cursor.new) else None) }
{
    let text = fraction(value);
    cursor.take(b" ") && is_word(text.as_str().as_bytes(), cursor.word())
}

/// This limit after a blank.
pub fn known_limit(cursor: &mut Cursor<'_>, limit: Option<Frac>) -> bool
    ensures { known_in (limit_value limit) cursor.old
        ≡ (if result then Some (limit_value limit, cursor.new) else None) }
{
    match limit {
        Some(value) => known_number(cursor, value),
        None => cursor.take(b" ") && is_word(b"NONE", cursor.word()),
    }
}
