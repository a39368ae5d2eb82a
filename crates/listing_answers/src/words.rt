// The words of verdicts.
ghost use Rattle.std.specs.Prelude.{◌≡◌, option_map, IfOk};
ghost use Rattle.std.specs.List.{flat_map};
ghost use Rattle.walk_definitions.specs.Checkers.{checker_of_128_bits};
ghost use Rattle.walk_definitions.specs.Words.{left_after, fraction_in, count_in};
ghost use Rattle.listing_words.specs.Read.{taken};
ghost use Rattle.listing_claims.specs.Numbers.{number_in};
ghost use Rattle.listing_answers.specs.Words.{labelled, refusal_in, IsCheckRead, IsCheckAfter, IsHeadRead};

use crate::reader::{Read, Reader};
use frac128::{Frac, Refused};
use listing_claims::{Checks, number_by};
use listing_readers::{MAX_COUNT, operation_of};
use listing_words::{Cursor, Number, count_in, fraction_in};

/// What stands before the lines of a verdict: its objective, and whether the listing says that it was checked.
#[derive(Drop)]
pub struct Head<'a> {
    pub objective: Number<'a>,
    pub is_checked: bool,
}

/// Takes some texts, one after another.
pub fn take_each(cursor: &mut Cursor<'_>, texts: &[&[u8]]) -> bool
    ensures { left_after (flat_map (λ text. text.now) texts.now) cursor.old ≡
        taken result cursor.new }
{
    for text in texts {
        if !cursor.take(text) {
            return false;
        }
    }
    true
}

/// A count after a text.
pub fn count_after(cursor: &mut Cursor<'_>, text: &[u8], most: u32) -> Option<u32>
    ensures { labelled text.now (count_in most) cursor.old ≡
        option_map (λ n. (n, cursor.new)) result }
{
    if !cursor.take(text) {
        return None;
    }
    count_in(cursor.word(), most)
}

// A fraction of 128 bits after a text.
fn fraction_after(cursor: &mut Cursor<'_>, text: &[u8]) -> Option<Frac>
    ensures { labelled text.now (fraction_in checker_of_128_bits) cursor.old ≡
        option_map (λ x. (x, cursor.new)) result }
{
    if !cursor.take(text) {
        return None;
    }
    fraction_in(cursor.word())
}

// The operation of a check that wasn't made. A run found it refused, so its numbers are fractions of 128 bits.
fn refusal(cursor: &mut Cursor<'_>) -> Option<Refused>
    ensures { refusal_in cursor.old ≡ option_map (λ refused. (refused, cursor.new)) result }
{
    if !cursor.take(b"UNCHECKED ") {
        return None;
    }
    let op = operation_of(cursor.word())?;
    let left = fraction_after(cursor, b" ")?;
    let right = fraction_after(cursor, b" ")?;
    if !cursor.take(b"\n") {
        return None;
    }
    Some(Refused { op, left, right })
}

// The word of a check: whether it was made.
fn check(cursor: &mut Cursor<'_>) -> Option<bool>
    ensures { IsCheckRead cursor.old cursor.new result }
{
    if cursor.take(b"CHECKED\n") {
        return Some(true);
    }
    refusal(cursor)?;
    Some(false)
}

/// The word of a check after a text: whether it was made.
pub fn check_after(cursor: &mut Cursor<'_>, text: &[u8]) -> Option<bool>
    ensures { IsCheckAfter text.now cursor.old cursor.new result }
{
    if !cursor.take(text) {
        return None;
    }
    check(cursor)
}

impl Reader<'_> {
    /// A number after a text.
    pub fn number_after<'a, T: Checks>(
        &self,
        cursor: &mut Cursor<'a>,
        text: &[u8],
    ) -> Read<Number<'a>>
        ensures { IfOk result
            (λ found. labelled text.now (number_in T.checker self.now.by) cursor.old ≡
            option_map (λ x. (x, cursor.new)) found) }
    {
        if !cursor.take(text) {
            return Ok(None);
        }
        number_by::<T>(self.alloc, self.by, cursor.word())
    }

    /// A text, a number of steps, an objective, and the word of a check.
    pub fn read_head<'a, T: Checks>(&self, cursor: &mut Cursor<'a>, text: &[u8]) -> Read<Head<'a>>
        ensures { IfOk result
            (IsHeadRead (number_in T.checker self.now.by) text.now cursor.old cursor.new) }
    {
        let Some(_steps) = count_after(cursor, text, MAX_COUNT) else {
            return Ok(None);
        };
        let Some(objective) = self.number_after::<T>(cursor, b" OBJECTIVE ")? else {
            return Ok(None);
        };
        let Some(is_checked) = check_after(cursor, b" ") else {
            return Ok(None);
        };
        Ok(Some(Head {
            objective,
            is_checked,
        }))
    }
}
